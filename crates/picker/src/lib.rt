// The pick: what the operation answers, and the operation.
#![tactic(auto)]

mod best;
mod components;
mod memos;

ghost use Rattle.std.specs.Prelude.{◌≡◌, ◌≤◌, length};
ghost use Rattle.masks.specs.Sets.{number, weight};
ghost use Rattle.graphs.specs.Graph.{cost_of};
ghost use Rattle.graphs.specs.Work.{Sound};
ghost use Rattle.picker.specs.Promise.{PickPromise};
ghost use Rattle.picker.specs.Work.{GraphPromise};

use components::{Found, graph_set};
use graphs::{Block, Graph, Refusal};
use masks::{Mask, Vertex};
use nodes::with_memo;
use reduction::reduce;

// The flip-flops to make scannable, what they cost together, and the largest need.
#[derive(Clone, Copy, Debug, PartialEq, Eq)]
pub struct Picked {
    pub set: Mask,
    pub cost: u64,
    pub need: usize,
}

// The lightest set that meets every loop: the forced set of the full reduction, which has at most 64 steps, joined with the lightest set of what that leaves.
// Both rooms are zero afterwards, the node room as far as it counts, unless the block did not pass the checks.
pub fn pick(
    rows: &[u64],
    costs: &[u32],
    nodes: &mut [u64],
    memo: &mut [u64],
) -> Result<Picked, Refusal>
    ensures { PickPromise rows.now costs.now nodes.old memo.old result nodes.new memo.new }
{
    let reduced = reduce(rows, costs, 64)?;
    let words = nodes::capacity(nodes);
    let found = left_set(
        &reduced.rows[..rows.len()],
        costs,
        &mut nodes[..words],
        memo,
    );
    nodes::empty(nodes);
    nodes::clear(memo);
    let found = found?;
    let set = reduced.forced.join(found.set);
    Ok(Picked {
        set,
        cost: cost_of(set, costs),
        need: found.need,
    })
}

// The lightest set of what the reduction left, in the part of the node room that counts, with a memo that is long enough. What the rooms held matters not,
// and nor does what they hold afterwards.
fn left_set<'a>(
    rows: &'a [u64],
    costs: &'a [u32],
    nodes: &mut [u64],
    memo: &mut [u64],
) -> Result<Found, Refusal>
    requires sound { Sound rows.now }
    requires even { length costs.now ≡ length rows.now }
    requires small { length nodes.old ≤ 65536 }
    ensures { GraphPromise rows.now costs.now (length nodes.old) result }
{
    let graph = Graph { rows };
    let left = Block { graph, costs };
    with_memo(memo, |memo| graph_set(left, nodes, memo))
}

// What a set costs: the sum of its members' costs. By the costs, as the definition of the weight goes: a member that has none counts nothing.
fn cost_of(set: Mask, costs: &[u32]) -> u64
    requires { length costs.now ≤ 64 }
    ensures { result ≡ weight (cost_of costs.now) (length costs.now) (number set) }
{
    let mut total = 0;
    for (v, &cost) in costs.iter().enumerate() {
        if set.has(Vertex(v)) {
            total += u64::from(cost);
        }
    }
    total
}
