// The reduction: its steps, and the operation.
#![tactic(auto)]

mod edges;
mod rules;
mod state;

ghost use Rattle.std.specs.Prelude.{◌≡◌, ◌-◌, ◌^◌, ◌≤◌, length};
ghost use Rattle.masks.specs.Sets.{number};
ghost use Rattle.graphs.specs.Graph.{cost_of};
ghost use Rattle.reduction.specs.Rules.{run, start};
ghost use Rattle.reduction.specs.Promise.{Returned, ReducePromise};
ghost use Rattle.reduction.specs.Work.{Beside, block, Logged};

use edges::in_rows;
use graphs::{Block, Refusal, drop_selves};
use masks::{Mask, Vertex};
use state::State;

// What was done with a flip-flop.
#[derive(Clone, Copy, Debug, PartialEq, Eq)]
pub enum Done {
    Forced,
    Dropped,
    Folded(Vertex),
}

// A step of the reduction, as it is recorded.
#[derive(Clone, Copy, Debug, PartialEq, Eq)]
pub struct Step {
    pub vertex: Vertex,
    pub done: Done,
}

impl Step {
    // What stands past the last step.
    const BLANK: Step = Step {
        vertex: Vertex(0),
        done: Done::Dropped,
    };
}

// The whole answer: how many steps, the steps, and the sets and the rows that are left. The arrays are of 64, since nothing is allocated, and places past
// the last step hold `Step::BLANK`, as a caller in C is promised.
#[derive(Clone, Copy, Debug, PartialEq, Eq)]
pub struct Reduced {
    pub count: usize,
    pub steps: [Step; 64],
    pub forced: Mask,
    pub live: Mask,
    pub rows: [u64; 64],
}

// The steps that were made, and the sets that are left: an answer without its rows, which stay where they are lent.
#[derive(Drop)]
struct Log {
    count: usize,
    steps: [Step; 64],
    forced: Mask,
    live: Mask,
}

// The four rules, one at a time, up to the limit.
pub fn reduce(rows: &[u64], costs: &[u32], limit: u64) -> Result<Reduced, Refusal>
    ensures { ReducePromise rows.now costs.now limit result }
{
    let block = Block::new(rows, costs)?;
    Ok(reduce_block(block, limit))
}

// The same for a block that passed the checks.
fn reduce_block(block: Block, limit: u64) -> Reduced
    ensures { Returned (run (cost_of block.entry.costs.now) limit (start block.entry.graph.rows.now)) result }
{
    let n = block.graph.len();
    let mut outs = [0u64; 64];
    let mut ins = [0u64; 64];
    drop_selves(block.graph.rows, &mut outs[..n]);
    in_rows(&outs[..n], &mut ins[..n]);
    // No more steps than there are flip-flops: a limit of their number or more is full reduction.
    let most = limit.min(n as u64) as usize;
    let log = run(&mut outs[..n], &mut ins[..n], block.costs, most);
    let steps = log.steps;
    Reduced {
        count: log.count,
        steps,
        forced: log.forced,
        live: log.live,
        rows: outs,
    }
}

// Up to so many steps.
fn run(outs: &mut [u64], ins: &mut [u64], costs: &[u32], most: usize) -> Log
    requires beside { Beside outs.old ins.old }
    requires even { length costs.now ≡ length outs.old }
    requires few { most ≤ 64 }
    ensures { Logged (run (cost_of costs.now) most (block (2 ^ length outs.old - 1) 0 outs.old)) result outs.new }
{
    let mut steps = [Step::BLANK; 64];
    let state = &mut State {
        live: Mask::below(outs.len()),
        forced: Mask::none(),
        outs,
        ins,
        costs,
    };
    for count in 0..most {
        let Some(step) = state.step() else {
            return Log {
                count,
                steps,
                forced: state.forced,
                live: state.live,
            };
        };
        steps[count] = step;
    }
    Log {
        count: most,
        steps,
        forced: state.forced,
        live: state.live,
    }
}
