// The passes of a component in the node room.
ghost use Rattle.std.specs.Prelude.{◌≡◌, List, ℕ, ◌≤◌, ◌<◌, T, length, replicate, slice_index};
ghost use Rattle.masks.specs.Sets.{bit, number};
ghost use Rattle.graphs.specs.Graph.{edge};
ghost use Rattle.arrayvec.specs.ArrayVec.{array_vec_len};
ghost use Rattle.cycles.specs.Work.{Shown, Summed, IsVariable, Multiplied, VariablesPromise, Settling};
ghost use Rattle.cycles.specs.Work.{Ready, ones_at_first, PassPromise, PassesPromise, BuildPromise, ComponentPromise};

use super::search::{Order, search_component, sources};
use graphs::Part;
use masks::{Mask, Vertex};
use nodes::{Full, Node, Rooms};

// The cycle function of a component: it stands in the first so many words of the node room, of which exactly the need is in use.
#[derive(Clone, Copy)]
pub struct Cycle {
    pub words: usize,
    pub function: Node,
}

// What a component's passes go by: its order, and at each member its in-neighbours and its variable. Tables are arrays of 64, since the memory is fixed.
#[derive(Clone, Copy)]
struct Wiring<'a> {
    order: &'a Order,
    sources: &'a [u64; 64],
    variables: &'a [Node; 64],
    ghost inner: { (k : ℕ) → k < array_vec_len order.now.flops → slice_index order.now.flops.items k < 64 },
}

// The cycle function of a component, in a part of the rooms where that is enough. What they held matters not: "the node room is emptied before each". The two
// rooms are lent apart: in a struct, each function that takes them would say in two clauses more that they are the same slices afterwards.
pub fn build_component(part: Part, nodes: &mut [u64], memo: &mut [u64]) -> Result<Cycle, Full>
    requires { length nodes.old ≤ 65536 }
    ensures { ComponentPromise (edge part.entry.graph.rows.now) (length part.entry.graph.rows.now) (number part.entry.members) nodes.new result }
{
    let words = first_words(part.members, nodes.len());
    if words < nodes.len() {
        let memory = first_words(part.members, memo.len());
        if let Ok(cycle) = build_in(part, &mut nodes[..words], &mut memo[..memory]) {
            return Ok(cycle);
        }
    }
    build_in(part, nodes, memo)
}

// How many of a room's words to work in at first. They are enough for nearly every component of so many flip-flops; and since a room is emptied and its words
// are counted for each component, that takes time by the component then, and not by the room.
fn first_words(members: Mask, room: usize) -> usize
    ensures { result ≤ room }
{
    let enough = match members.count() {
        0..=10 => 4096,
        11..=16 => 16384,
        _ => room,
    };
    enough.min(room)
}

// In the whole of the lent rooms, emptied.
fn build_in(part: Part, nodes: &mut [u64], memo: &mut [u64]) -> Result<Cycle, Full>
    requires { length nodes.old ≤ 65536 }
    ensures { ComponentPromise (edge part.entry.graph.rows.now) (length part.entry.graph.rows.now) (number part.entry.members) nodes.new result }
{
    nodes::clear(nodes);
    nodes::clear(memo);
    let function = build(part, &mut Rooms { nodes, memo })?;
    Ok(Cycle {
        words: nodes.len(),
        function,
    })
}

// The cycle function of a component in an empty node room, of which exactly the need is then in use; or that the room is too small.
fn build(part: Part, rooms: &mut Rooms) -> Result<Node, Full>
    requires { rooms.old.nodes.now ≡ replicate (length rooms.old.nodes.now) 0 }
    ensures same_nodes { rooms.new.nodes.ghost_name ≡ rooms.old.nodes.ghost_name }
    ensures same_memo { rooms.new.memo.ghost_name ≡ rooms.old.memo.ghost_name }
    ensures built { BuildPromise (edge part.entry.graph.rows.now) (length part.entry.graph.rows.now) (number part.entry.members) rooms.new.nodes.now result }
{
    let order = search_component(part);
    let from = sources(part.graph.rows, part.members);
    let variables = make_variables(rooms, part.members)?;
    let wiring = Wiring {
        order: &order,
        sources: &from,
        variables: &variables,
    };
    let table = make_passes(rooms, wiring)?;
    any_of(rooms, order.back, &table)
}

// The variables of the members, at their numbers in a table.
fn make_variables(rooms: &mut Rooms, members: Mask) -> Result<[Node; 64], Full>
    ensures same_nodes { rooms.new.nodes.ghost_name ≡ rooms.old.nodes.ghost_name }
    ensures same_memo { rooms.new.memo.ghost_name ≡ rooms.old.memo.ghost_name }
    ensures made { VariablesPromise rooms.old.nodes.now rooms.new.nodes.now (number members) result }
{
    let mut variables = [Node::OFF; 64];
    for v in members.members() {
        variables[v.0] = rooms.variable(v)?;
    }
    Ok(variables)
}

// Passes until one changes no member of B, at most as many as B has members. At the members of B the table has F0 at first, and the last pass in the end.
fn make_passes(rooms: &mut Rooms, wiring: Wiring) -> Result<[Node; 64], Full>
    requires { (rows : List ℕ) × (C : ℕ) × Ready rows C 0 rooms.old.nodes.now wiring.order.now wiring.sources.now wiring.variables.now ones_at_first }
    ensures same_nodes { rooms.new.nodes.ghost_name ≡ rooms.old.nodes.ghost_name }
    ensures same_memo { rooms.new.memo.ghost_name ≡ rooms.old.memo.ghost_name }
    ensures passes { (rows : List ℕ) (C : ℕ)
        → Ready rows C 0 rooms.old.nodes.now wiring.entry.order.now wiring.entry.sources.now wiring.entry.variables.now ones_at_first
        → PassesPromise rows C rooms.old.nodes.now rooms.new.nodes.now result }
{
    let mut table = [Node::ON; 64];
    let mut next = [Node::OFF; 64];
    for _ in 0..wiring.order.back.count() {
        pass(rooms, wiring, &mut table, &mut next)?;
        if settle(wiring.order.back, &mut table, &next) {
            break;
        }
    }
    Ok(table)
}

// One pass, the last ended flip-flop first. The table has what each flip-flop hands on: a member of B what it had in the last pass, any other what it has
// in this one. What the members of B have in this one is next.
fn pass(
    rooms: &mut Rooms,
    wiring: Wiring,
    table: &mut [Node; 64],
    next: &mut [Node; 64],
) -> Result<(), Full>
    requires { (rows : List ℕ) × (C : ℕ) × (i : ℕ) × Ready rows C i rooms.old.nodes.now wiring.order.now wiring.sources.now wiring.variables.now table.old }
    ensures same_nodes { rooms.new.nodes.ghost_name ≡ rooms.old.nodes.ghost_name }
    ensures same_memo { rooms.new.memo.ghost_name ≡ rooms.old.memo.ghost_name }
    ensures passed { (rows : List ℕ) (C i : ℕ)
        → Ready rows C i rooms.old.nodes.now wiring.entry.order.now wiring.entry.sources.now wiring.entry.variables.now table.old
        → PassPromise rows C i rooms.old.nodes.now rooms.new.nodes.now table.new next.new result }
{
    let Wiring {
        order,
        sources,
        variables,
    } = wiring;
    // by place, since what has passed is what stands behind it
    let ended = order.flops.as_slice();
    for i in (0..ended.len()).rev() {
        let v = Vertex(ended[i]);
        let node = product(rooms, variables[v.0], Mask::row(sources, v), table)?;
        if order.back.has(v) {
            next[v.0] = node;
        } else {
            table[v.0] = node;
        }
    }
    Ok(())
}

// "v AND the OR over in-neighbours u" of what they hand on.
fn product(rooms: &mut Rooms, variable: Node, from: Mask, table: &[Node; 64]) -> Result<Node, Full>
    requires variable { (v : ℕ) × IsVariable rooms.old.nodes.now variable.0 v }
    requires table { Shown rooms.old.nodes.now table.now (number from) }
    ensures same_nodes { rooms.new.nodes.ghost_name ≡ rooms.old.nodes.ghost_name }
    ensures same_memo { rooms.new.memo.ghost_name ≡ rooms.old.memo.ghost_name }
    ensures made { Multiplied rooms.old.nodes.now rooms.new.nodes.now table.now variable.0 (number from) result }
{
    let all = any_of(rooms, from, table)?;
    rooms.and(variable, all)
}

// The OR over a set of what the table has.
fn any_of(rooms: &mut Rooms, set: Mask, table: &[Node; 64]) -> Result<Node, Full>
    requires { Shown rooms.old.nodes.now table.now (number set) }
    ensures same_nodes { rooms.new.nodes.ghost_name ≡ rooms.old.nodes.ghost_name }
    ensures same_memo { rooms.new.memo.ghost_name ≡ rooms.old.memo.ghost_name }
    ensures made { Summed rooms.old.nodes.now rooms.new.nodes.now table.now (number set) result }
{
    let mut all = Node::OFF;
    for u in set.members() {
        all = rooms.or(all, table[u.0])?;
    }
    Ok(all)
}

// The pass becomes the last one; whether it changed no member of B.
fn settle(back: Mask, table: &mut [Node; 64], next: &[Node; 64]) -> bool
    ensures { Settling (number back) table.old next.now table.new result }
{
    let mut same = true;
    for b in back.members() {
        if table[b.0] != next[b.0] {
            same = false;
        }
        table[b.0] = next[b.0];
    }
    same
}
