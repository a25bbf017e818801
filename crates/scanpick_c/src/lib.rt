// The operations for programs in C: slices and numbers in, numbers out. include/scanpick.h says what each takes and gives.
#![tactic(auto)]

ghost use Rattle.std.specs.Prelude.{◌≡◌, [], ◌∷◌, ◌-◌, ◌≤◌, map, replicate, All};
ghost use Rattle.graphs.specs.Refusals.{number_of, place_of};
ghost use Rattle.scanpick_c.specs.Promise.{step_word, PickGives, AskGives, ReduceGives, ReadGives, WriteGives};
ghost use Rattle.scanpick_c.specs.Work.{Small};

use cycles::Asked;
use graphs::Refusal;
use picker::Picked;
use reduction::{Done, Step};

// The pick. out: number, place, mask, cost, need.
#[unsafe(no_mangle)]
pub extern "C" fn scanpick_pick(
    rows: &[u64],
    costs: &[u32],
    nodes: &mut [u64],
    memo: &mut [u64],
    out: &mut [u64; 5],
)
    ensures { PickGives rows.now costs.now nodes.old memo.old nodes.new memo.new out.new }
{
    *out = match picker::pick(rows, costs, nodes, memo) {
        Ok(Picked { set, cost, need }) => [0, 0, set.word(), cost, need as u64],
        Err(refusal) => refused(refusal),
    };
}

// The question about a kept set. out: number, place, yes, need.
#[unsafe(no_mangle)]
pub extern "C" fn scanpick_ask(
    rows: &[u64],
    kept: u64,
    nodes: &mut [u64],
    memo: &mut [u64],
    out: &mut [u64; 4],
)
    ensures { AskGives rows.now kept nodes.old memo.old nodes.new memo.new out.new }
{
    *out = match cycles::ask(rows, kept, nodes, memo) {
        Ok(Asked { holds, need }) => [0, 0, holds as u64, need as u64],
        Err(refusal) => refused(refusal),
    };
}

// The reduction. out: number, place, count, forced, live; steps: a word each, zero past the last; left: the rows that are left.
#[unsafe(no_mangle)]
pub extern "C" fn scanpick_reduce(
    rows: &[u64],
    costs: &[u32],
    limit: u64,
    out: &mut [u64; 5],
    steps: &mut [u64; 64],
    left: &mut [u64; 64],
)
    ensures { ReduceGives rows.now costs.now limit out.new steps.new left.new }
{
    match reduction::reduce(rows, costs, limit) {
        Ok(reduced) => {
            let made = reduced.steps;
            let still = reduced.rows;
            let forced = reduced.forced.word();
            let live = reduced.live.word();
            *out = [0, 0, reduced.count as u64, forced, live];
            *steps = step_words(made);
            *left = still;
        }
        Err(refusal) => {
            *out = refused(refusal);
            *steps = [0; 64];
            *left = [0; 64];
        }
    }
}

// The steps as numbers. In a loop, since `steps.map(step_word)` moves the steps into options first: the whole operation then takes a tenth more instructions.
fn step_words(steps: [Step; 64]) -> [u64; 64]
    requires { All Small steps }
    ensures { result ≡ map step_word steps }
{
    let mut words = [0u64; 64];
    for i in 0..64 {
        words[i] = step_word(steps[i]);
    }
    words
}

// A step as a number: the flip-flop, 256 times what was done with it, 65,536 times the neighbour.
fn step_word(step: Step) -> u64
    requires { Small step }
    ensures { result ≡ step_word step }
{
    let v = step.vertex.0 as u64;
    match step.done {
        Done::Dropped => v,
        Done::Forced => v + 256,
        Done::Folded(u) => v + 512 + 65536 * (u.0 as u64),
    }
}

// The reader. out: number, place, n.
#[unsafe(no_mangle)]
pub extern "C" fn scanpick_read(
    file: &[u8],
    costs: &mut [u32],
    rows: &mut [u64],
    out: &mut [u64; 3],
)
    ensures { ReadGives file.now costs.old rows.old costs.new rows.new out.new }
{
    *out = match blockfile::read(file, costs, rows) {
        Ok(n) => [0, 0, n as u64],
        Err(refusal) => refused(refusal),
    };
}

// The writer. out: number, place, length.
#[unsafe(no_mangle)]
pub extern "C" fn scanpick_write(rows: &[u64], costs: &[u32], file: &mut [u8], out: &mut [u64; 3])
    ensures { WriteGives rows.now costs.now file.old file.new out.new }
{
    *out = match blockfile::write(rows, costs, file) {
        Ok(n) => [0, 0, n as u64],
        Err(refusal) => refused(refusal),
    };
}

// A refusal's number and place, and 0 in every other result.
fn refused<const N: usize>(refusal: Refusal) -> [u64; N]
    requires { 2 ≤ N }
    ensures { result ≡ number_of refusal ∷ place_of refusal ∷ replicate (N - 2) 0 }
{
    let mut words = [0u64; N];
    words[0] = refusal.number();
    words[1] = refusal.place();
    words
}
