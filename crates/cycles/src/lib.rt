// The cycle function of a component: what a question about a kept set answers.
#![tactic(auto)]

mod making;
mod search;

ghost use Rattle.std.specs.Prelude.{◌≤◌, length};
ghost use Rattle.masks.specs.Sets.{number};
ghost use Rattle.graphs.specs.Graph.{edge};
ghost use Rattle.cycles.specs.Promise.{AskAnswer, AskPromise};
ghost use Rattle.cycles.specs.Work.{PartPromise};

use graphs::{Graph, Part, Refusal};
pub use making::{Cycle, build_component};
use masks::Mask;
use nodes::{Full, Nodes, with_memo};

// Whether the kept flip-flops hold a loop, and the largest need.
#[derive(Clone, Copy, Debug, PartialEq, Eq)]
pub struct Asked {
    pub holds: bool,
    pub need: usize,
}

// Whether the kept flip-flops hold a loop in the graph as lent.
pub fn ask(rows: &[u64], kept: u64, nodes: &mut [u64], memo: &mut [u64]) -> Result<Asked, Refusal>
    ensures { AskPromise rows.now kept nodes.old memo.old result nodes.new memo.new }
{
    let graph = Graph::new(rows)?;
    let keep = Mask::of(kept);
    if !keep.without(Mask::below(graph.len())).is_empty() {
        return Err(Refusal::KeptOutside);
    }
    let words = nodes::capacity(nodes);
    let answer = ask_memo(graph, keep, &mut nodes[..words], memo);
    nodes::empty(nodes);
    nodes::clear(memo);
    answer
}

// In the part of the node room that counts, with a memo that is long enough.
fn ask_memo(graph: Graph, kept: Mask, nodes: &mut [u64], memo: &mut [u64]) -> Result<Asked, Refusal>
    requires { length nodes.old ≤ 65536 }
    ensures { AskAnswer graph.entry.rows.now (number kept) (length nodes.old) result }
{
    with_memo(memo, |memo| ask_graph(graph, kept, nodes, memo))
}

// Each component, by lowest flip-flop.
fn ask_graph(
    graph: Graph,
    kept: Mask,
    nodes: &mut [u64],
    memo: &mut [u64],
) -> Result<Asked, Refusal>
    requires { length nodes.old ≤ 65536 }
    ensures { AskAnswer graph.entry.rows.now (number kept) (length nodes.old) result }
{
    let mut holds = false;
    let mut need = 0;
    for part in graph.components() {
        // by `let .. else`: of `map_err` and `?` nothing is known but that it is an error
        let Ok(asked) = ask_part(part, kept, nodes, memo) else {
            return Err(Refusal::RoomTooSmall {
                component: part.lowest.0,
            });
        };
        need = need.max(asked.need);
        holds |= asked.holds;
    }
    Ok(Asked { holds, need })
}

// The same of one component; or that its need exceeds the room. A pick builds a component like this too, and asks it for another thing.
fn ask_part(part: Part, kept: Mask, nodes: &mut [u64], memo: &mut [u64]) -> Result<Asked, Full>
    requires { length nodes.old ≤ 65536 }
    ensures { PartPromise (edge part.entry.graph.rows.now) (length part.entry.graph.rows.now) (number part.entry.members) (number kept)
        (length nodes.old) result }
{
    let cycle = build_component(part, nodes, memo)?;
    let built = Nodes {
        words: &nodes[..cycle.words],
    };
    Ok(Asked {
        holds: built.value(cycle.function, kept),
        need: built.used(),
    })
}
