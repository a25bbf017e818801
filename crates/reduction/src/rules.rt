// The four rules: their order, what becomes of a flip-flop by each, and what a fold asks.
ghost use Rattle.std.specs.Prelude.{◌≡◌, ◌≤◌, ◌<◌, ◌^◌, length};
ghost use Rattle.masks.specs.Sets.{number};
ghost use Rattle.graphs.specs.Graph.{cost_of};
ghost use Rattle.reduction.specs.Rules.{beats};
ghost use Rattle.reduction.specs.Work.{Beside, block, one_cheaper};

use crate::Done;
use crate::edges::{fold, remove};
use masks::{Mask, Vertex};

// A rule, by what it asks of a flip-flop: 1 an edge to itself, 2 no edge in or none out, 3 one in-neighbour, 4 one out-neighbour.
#[derive(Clone, Copy, Debug, PartialEq, Eq)]
pub enum Rule {
    Looped,
    Loose,
    OneIn,
    OneOut,
}

// What a rule makes of the two sets, and what it did with its flip-flop.
#[derive(Drop)]
pub struct Change {
    pub live: Mask,
    pub forced: Mask,
    pub done: Done,
}

impl Rule {
    ghost use Rattle.reduction.specs.Work.{Usable, Performed};

    // In the order of their numbers.
    pub const ALL: [Rule; 4] = [Rule::Looped, Rule::Loose, Rule::OneIn, Rule::OneOut];

    // Uses the rule on v. A rule goes by sets and rows, and not by the record: the rows are changed where they are, and what becomes of the sets is returned.
    pub fn apply(
        self,
        live: Mask,
        forced: Mask,
        outs: &mut [u64],
        ins: &mut [u64],
        v: Vertex,
    ) -> Change
        requires beside { Beside outs.old ins.old }
        requires within { v.0 < length outs.old }
        requires usable { Usable self outs.old v.0 }
        ensures beside { Beside outs.new ins.new }
        ensures performed { Performed self (block (number live) (number forced) outs.old) v.0 result.done
            (block (number result.live) (number result.forced) outs.new) }
    {
        let (forced, done) = match self {
            Rule::Looped => {
                remove(outs, ins, v);
                (forced.put(v), Done::Forced)
            }
            Rule::Loose => {
                remove(outs, ins, v);
                (forced, Done::Dropped)
            }
            Rule::OneIn => (forced, Done::Folded(fold(outs, ins, v))),
            Rule::OneOut => (forced, Done::Folded(fold(ins, outs, v))),
        };
        let live = live.cut(v);
        Change { live, forced, done }
    }
}

// What rules 3 and 4 ask: one neighbour on a side, and that one cheaper.
pub fn folds(side: Mask, v: Vertex, costs: &[u32]) -> bool
    requires within { v.0 < length costs.now }
    requires fits { number side < 2 ^ length costs.now }
    requires few { length costs.now ≤ 64 }
    ensures { result ≡ one_cheaper (cost_of costs.now) (length costs.now) (number side) v.0 }
{
    if side.count() != 1 {
        return false;
    }
    match side.lowest() {
        Some(u) => cheaper(u, v, costs),
        None => false,
    }
}

// Whether u costs less than v, or the same and u < v.
fn cheaper(u: Vertex, v: Vertex, costs: &[u32]) -> bool
    requires { (u.0 < length costs.now) × (v.0 < length costs.now) }
    ensures { result ≡ beats (cost_of costs.now) u.0 v.0 }
{
    (costs[u.0], u) < (costs[v.0], v)
}
