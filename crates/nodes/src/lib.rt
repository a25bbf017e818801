// The node room: functions of the kept set as nodes in a lent room of words, with a second room as the memo of joins. The operations work in the part of
// the node room that counts, `&mut nodes[..n]` with n its capacity, after it was emptied and the memo cleared. A memo room as long as the node room is the
// good choice for large needs; a short one costs time only, since a local one takes its place.
#![tactic(auto)]

mod connective;
mod joins;
mod memos;
mod probes;
mod rooms;
mod view;
mod words;

ghost use Rattle.std.specs.Borrow.{MutBor};
ghost use Rattle.std.specs.Prelude.{◌≡◌, ◌≤◌, List, ℕ, length};
ghost use Rattle.nodes.specs.Rooms as rooms;

use masks::Vertex;
pub use rooms::Rooms;
pub use view::{Nodes, look};

// The most words of a node room that count.
const MOST: usize = 65536;

// The fewest words of a memo that is worth its use: in place of a shorter one, a local one of so many is used.
const MEMO: usize = 4096;

// A code: 0 and 1 are the constants, slot + 2 is a node. It keeps no bound: which codes there are is a room's to say (`Held`), and C hands in plain numbers.
#[derive(Clone, Copy, Debug, PartialEq, Eq, PartialOrd, Ord)]
pub struct Node(pub u64);

impl Node {
    // The function that is 0 everywhere.
    pub const OFF: Node = Node(0);

    // The function that is 1 everywhere.
    pub const ON: Node = Node(1);
}

// What an operation that makes nodes answers in place of a code: the room is full.
#[derive(Clone, Copy, Debug, PartialEq, Eq)]
pub struct Full;

// What a code is: a constant, or a decision with its low and its high branch.
#[derive(Clone, Copy, Debug, PartialEq, Eq)]
pub enum Shape {
    Off,
    On,
    Branch(Vertex, Node, Node),
}

// The number of words in use.
pub fn used(nodes: &[u64]) -> usize
    ensures { result ≡ rooms.used nodes.now }
{
    // by a loop: `filter` and `count` take twice as many instructions
    let mut count = 0;
    for word in nodes.iter() {
        if *word != 0 {
            count += 1;
        }
    }
    count
}

// How many words of the node room count.
pub fn capacity(nodes: &[u64]) -> usize
    ensures { result ≡ rooms.capacity nodes.now }
{
    nodes.len().min(MOST)
}

// Empties a room, whatever it held.
pub fn clear(words: &mut [u64])
    ensures { words.new ≡ rooms.zeroed words.old }
{
    words.fill(0);
}

// Empties the node room as far as it counts. The rest is left alone.
pub fn empty(nodes: &mut [u64])
    ensures { nodes.new ≡ rooms.emptied nodes.old }
{
    let n = capacity(nodes);
    clear(&mut nodes[..n]);
}

// Calls `work` with a memo that is long enough: the lent one, or, where that is short, a local one, which is empty. The answer is one that it gives with some
// memo of so many words; what the lent one holds afterwards is left open.
pub fn with_memo<R, F: FnOnce(&mut [u64]) -> R>(memo: &mut [u64], work: F) -> R
    requires { (lent : MutBor (List ℕ)) → MEMO ≤ length lent.now → F.pre work lent }
    ensures { (lent : MutBor (List ℕ)) × (left : MutBor (List ℕ)) × (MEMO ≤ length lent.now) × F.post work lent result left }
{
    if memo.len() < MEMO {
        let mut own = [0u64; MEMO];
        return work(&mut own);
    }
    work(memo)
}
