// The lightest set of a function in the node room: along the paths to 0. An end at 0 costs nothing, an end at 1 has no set.
ghost use Rattle.std.specs.Prelude.{◌≡◌, ◌^◌, ◌≤◌, ◌<◌, ℕ, length, get_or};
ghost use Rattle.masks.specs.Sets.{number};
ghost use Rattle.graphs.specs.Graph.{cost_of};
ghost use Rattle.trees.specs.Best as trees;
ghost use Rattle.picker.specs.Work.{set_of, Priced, Lacks, Standing, BestMemo, Walked, LightestPromise, LighterPromise};

use super::memos::Memo;
use masks::{Mask, Vertex};
use nodes::{Node, Nodes, Shape};

// A set after its cost: of two the lighter one is the smaller.
#[derive(Clone, Copy, Debug, PartialEq, Eq, PartialOrd, Ord)]
pub struct Best {
    pub cost: u64,
    pub set: Mask,
}

// The walk: the nodes, what each flip-flop costs, and what is known of the best sets of nodes.
#[derive(Drop)]
struct Walk<'a, 'b> {
    nodes: Nodes<'a>,
    costs: &'a [u32],
    memo: Memo<'b>,
    ghost few: { length costs.now ≤ 64 },
    ghost fit: { (v : ℕ) → get_or costs.now v 0 < 2 ^ 32 },
    ghost right: { BestMemo (cost_of costs.now) (length costs.now) nodes.words.now memo.words.now },
}

// The lightest set of a function that is not 1 everywhere. (One that is has none.) The memo may hold anything; no more of it is emptied and used than
// two words for each code, with which nothing is found twice. The costs come without their block, since nothing is asked of its rows.
pub fn lightest<'a>(nodes: Nodes<'a>, memo: &mut [u64], function: Node, costs: &'a [u32]) -> Mask
    requires standing { Standing nodes.words.now costs.now function.0 }
    requires few { length costs.now ≤ 64 }
    requires pairs { 2 ≤ length memo.old }
    ensures { LightestPromise nodes.entry.words.now costs.now function.0 (number result) }
{
    let words = memo.len().min(2 * nodes.words.len() + 4);
    let words = &mut memo[..words];
    nodes::clear(words);
    let memo = Memo { words };
    let walk = &mut Walk { nodes, costs, memo };
    match walk.best_of(function) {
        Some(best) => best.set,
        None => Mask::none(),
    }
}

impl<'a, 'b> Walk<'a, 'b> {
    // The best set of a node's function: on the low side v is not kept, so the set takes it. The number of remaining variables falls at each call.
    fn best_of(&mut self, node: Node) -> Option<Best>
        requires { Standing self.old.nodes.words.now self.old.costs.now node.0 }
        ensures same_nodes { self.new.nodes.words.now ≡ self.old.nodes.words.now }
        ensures same_costs { self.new.costs.now ≡ self.old.costs.now }
        ensures told { Walked self.old.nodes.words.now self.old.costs.now node.0 result }
    {
        match self.nodes.look(node) {
            Shape::Off => Some(Best {
                cost: 0,
                set: Mask::none(),
            }),
            Shape::On => None,
            Shape::Branch(v, low, high) => {
                if let Some(best) = self.memo.recall(node) {
                    return Some(best);
                }
                let taken = held(self.best_of(low), v, self.costs);
                let found = lighter(taken, self.best_of(high));
                if let Some(best) = found {
                    self.memo.remember(node, best);
                }
                found
            }
        }
    }
}

// The set with v too.
fn held(best: Option<Best>, v: Vertex, costs: &[u32]) -> Option<Best>
    requires in_bounds { (v.0 < length costs.now) × (length costs.now ≤ 64) }
    requires priced_without_v { Priced (cost_of costs.now) (length costs.now) best × Lacks v.0 best }
    ensures { (set_of result ≡ trees.held v.0 (set_of best)) × Priced (cost_of costs.now) (length costs.now) result }
{
    let Best { cost, set } = best?;
    Some(Best {
        cost: cost + u64::from(costs[v.0]),
        set: set.put(v),
    })
}

// The lighter one of two: by cost, then by the set's number.
fn lighter(a: Option<Best>, b: Option<Best>) -> Option<Best>
    ensures { LighterPromise a b result }
{
    match (a, b) {
        (Some(x), Some(y)) => Some(x.min(y)),
        (None, _) => b,
        (_, None) => a,
    }
}
