// The lightest set that meets every loop of a graph, by its components.
ghost use Rattle.std.specs.Prelude.{◌≡◌, ◌≤◌, length};
ghost use Rattle.masks.specs.Sets.{number};
ghost use Rattle.picker.specs.Work.{SetPromise, GraphPromise};

use super::best::lightest;
use cycles::build_component;
use graphs::{Block, Part, Refusal};
use masks::Mask;
use nodes::{Full, Nodes};

// A lightest set, and the largest need on the way to it.
#[derive(Clone, Copy)]
pub struct Found {
    pub set: Mask,
    pub need: usize,
}

// The lightest sets of all components together, or refusal 4 for the first component that doesn't fit the room. A question in `cycles` goes from component to
// component like this too; what it asks of one and keeps of the answer is all of its loop, so a walk for both would be no shorter.
pub fn graph_set(block: Block, nodes: &mut [u64], memo: &mut [u64]) -> Result<Found, Refusal>
    requires small { length nodes.old ≤ 65536 }
    requires pairs { 2 ≤ length memo.old }
    ensures { GraphPromise block.entry.graph.rows.now block.entry.costs.now (length nodes.old) result }
{
    let mut set = Mask::none();
    let mut need = 0;
    for part in block.graph.components() {
        // by `let .. else`, as there
        let Ok(found) = component_set(part, block.costs, nodes, memo) else {
            return Err(Refusal::RoomTooSmall {
                component: part.lowest.0,
            });
        };
        set = set.join(found.set);
        need = need.max(found.need);
    }
    Ok(Found { set, need })
}

// One component, with its need. The rooms are lent apart, since the nodes are read while the memo is written, and the memo is a `Memo` only once it is emptied.
fn component_set(
    part: Part,
    costs: &[u32],
    nodes: &mut [u64],
    memo: &mut [u64],
) -> Result<Found, Full>
    requires even { length costs.now ≡ length part.graph.rows.now }
    requires small { length nodes.old ≤ 65536 }
    requires pairs { 2 ≤ length memo.old }
    ensures { SetPromise part.entry.graph.rows.now costs.now (number part.entry.members) (length nodes.old) result }
{
    let built = build_component(part, nodes, memo)?;
    let room = Nodes {
        words: &nodes[..built.words],
    };
    let set = lightest(room, memo, built.function, costs);
    Ok(Found {
        set,
        need: room.used(),
    })
}
