// The node room for a C program that measures it, a function for each symbol. Codes are plain numbers here; FULL stands for a full room.
#![tactic(auto)]

ghost use Rattle.std.specs.Prelude.{◌<◌};
ghost use Rattle.nodes.specs.Codes.{variables, Table};
ghost use Rattle.nodes.specs.Promise.{Joinable};

use masks::Vertex;
use nodes::{Full, Node, Rooms};

// What stands for a full room: no code is that large.
const FULL: u64 = 131072;

// The code, or FULL.
fn code(made: Result<Node, Full>) -> u64 {
    match made {
        Ok(c) => c.0,
        Err(Full) => FULL,
    }
}

// The function that is 1 where v is kept.
#[unsafe(no_mangle)]
pub extern "C" fn room_variable(room: &mut [u64], v: usize) -> u64
    requires { Table room.old × (v < variables) }
{
    let rooms = &mut Rooms {
        nodes: room,
        memo: &mut [],
    };
    code(rooms.variable(Vertex(v)))
}

// The OR of two functions.
#[unsafe(no_mangle)]
pub extern "C" fn room_or(room: &mut [u64], memo: &mut [u64], a: u64, b: u64) -> u64
    requires { Joinable room.old memo.old a b }
{
    let rooms = &mut Rooms { nodes: room, memo };
    code(rooms.or(Node(a), Node(b)))
}

// The AND of two functions.
#[unsafe(no_mangle)]
pub extern "C" fn room_and(room: &mut [u64], memo: &mut [u64], a: u64, b: u64) -> u64
    requires { Joinable room.old memo.old a b }
{
    let rooms = &mut Rooms { nodes: room, memo };
    code(rooms.and(Node(a), Node(b)))
}

// How many words are in use.
#[unsafe(no_mangle)]
pub extern "C" fn room_used(room: &[u64]) -> usize {
    nodes::used(room)
}

// Empties a room.
#[unsafe(no_mangle)]
pub extern "C" fn room_clear(words: &mut [u64]) {
    nodes::clear(words);
}
