// The program: a block file from standard input, and on standard output the flip-flops to make scannable; or the refusal.
#![tactic(auto)]

ghost use Rattle.std.specs.Prelude.{◌≤◌, ◌<◌, IfOk, length, take};
ghost use Rattle.std.specs.Io.KnownBytes.{Consumes, IsAtEnd};

use masks::Mask;
use picker::Picked;
use std::io::{self, Read};

fn main(rt: HostRuntime) -> io::Result<()> {
    // one byte more than the longest file, so that a longer one is refused
    let mut file = [0u8; 775];
    let length = read_full(&mut rt.stdin(), &mut file)?;
    let mut costs = [0u32; 64];
    let mut rows = [0u64; 64];
    let read = blockfile::read(&file[..length], &mut costs, &mut rows);
    // as the rules have it, by `let .. else`: a refusal is printed in the else branch, and the program stops there
    let Ok(n) = read else {
        let refusal = read.unwrap_err();
        return println!(rt; "{refusal}");
    };
    show_pick(&rt, &rows[..n], &costs[..n])
}

// Reads until the buffer is full or the input ends, and says how many bytes the buffer has of it. The loop stands here since no function of std does the
// same without a heap: `read_exact` does not tell how much it read of a short input, and `copy` promises nothing of its count where the input is not known.
fn read_full<R: Read>(input: &mut R, file: &mut [u8]) -> io::Result<usize>
    ensures bound { IfOk result (λ n. n ≤ length file.new) }
    ensures bytes { IfOk result (λ n. Consumes (R.remaining input.old) (R.remaining input.new) (take n file.new)) }
    ensures all { IfOk result (λ n. n < length file.new → IsAtEnd (R.remaining input.new)) }
{
    let mut length = 0;
    while length < file.len() {
        let more = input.read(&mut file[length..])?;
        if more == 0 {
            break;
        }
        length += more;
    }
    Ok(length)
}

// The picked set, or the refusal.
fn show_pick(rt: &impl Print, rows: &[u64], costs: &[u32]) -> io::Result<()> {
    let mut nodes = [0u64; 4096];
    let mut memo = [0u64; 4096];
    match picker::pick(rows, costs, &mut nodes, &mut memo) {
        Ok(Picked { set, cost, .. }) => show_set(rt, set, cost),
        Err(refusal) => println!(rt; "{refusal}"),
    }
}

// What the set costs, how many it has, and a line for each member.
fn show_set(rt: &impl Print, set: Mask, cost: u64) -> io::Result<()> {
    println!(rt; "cost {cost}")?;
    println!(rt; "count {}", set.count())?;
    for v in set.members() {
        println!(rt; "scan {}", v.0)?;
    }
    Ok(())
}
