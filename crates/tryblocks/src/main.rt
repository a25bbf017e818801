// Blocks that document 01 names to be run, and blocks at the limits, through `pick`: a line for each, held to the file `stdout`.
#![tactic(auto)]

mod blocks;

ghost use Rattle.std.specs.Prelude.{◌≤◌};

use blocks::{Trial, all_edges, chain, pairs, ring, two_way_ring};
use picker::Picked;
use std::io;

const DEAREST: u32 = u32::MAX;

fn main(rt: HostRuntime) -> io::Result<()> {
    rings(&rt)?;
    dense(&rt)?;
    all_passes(&rt)?;
    far_costs(&rt)
}

// A need of exactly the room, and one more; and memo rooms of any length.
fn rings(rt: &impl Print) -> io::Result<()> {
    ring(64).try_pick(rt, "ring of 64", 4096, 4096)?;
    Trial::ones(65, [0; 65]).try_pick(rt, "65 rows", 4096, 4096)?;
    let block = two_way_ring(63);
    block.try_pick(rt, "two-way ring of 63, room 4042", 4042, 4096)?;
    block.try_pick(rt, "the same, memo 64", 4042, 64)?;
    block.try_pick(rt, "the same, memo 0", 4042, 0)?;
    block.try_pick(rt, "the same, room 4041", 4041, 4096)
}

fn dense(rt: &impl Print) -> io::Result<()> {
    all_edges(17).try_pick(rt, "all edges of 17, room 65536", 65536, 65536)
}

// Blocks in which the last of k passes still changes a member of B: of 20 flip-flops 16 are in B, of 40 32.
fn all_passes(rt: &impl Print) -> io::Result<()> {
    let short = chain(20);
    short.try_pick(rt, "16 passes, room 1046", 1046, 4096)?;
    short.try_pick(rt, "16 passes, room 1045", 1045, 4096)?;
    let long = chain(40);
    long.try_pick(rt, "32 passes, room 5401", 5401, 4096)?;
    long.try_pick(rt, "32 passes, room 5400", 5400, 4096)
}

fn far_costs(rt: &impl Print) -> io::Result<()> {
    let mut couples = pairs();
    couples.costs = [0; 65];
    couples.try_pick(rt, "32 pairs, costs 0", 0, 0)?;
    couples.costs = [DEAREST; 65];
    couples.try_pick(rt, "32 pairs, costs 4294967295", 0, 0)?;
    let mut block = ring(64);
    block.costs = [DEAREST; 65];
    block.costs[40] = 0;
    block.try_pick(rt, "ring of 64, one costs 0", 0, 0)?;
    let mut block = two_way_ring(3);
    block.costs[0] = DEAREST;
    block.costs[2] = 0;
    let name = "two-way ring of 3, costs 4294967295, 1, 0";
    block.try_pick(rt, name, 4096, 4096)
}

impl Trial {
    // One line: what is tried, and the answer in rooms of these lengths.
    fn try_pick(&self, rt: &impl Print, name: &str, room: usize, memory: usize) -> io::Result<()>
        requires { (room ≤ 65536) × (memory ≤ 65536) }
    {
        let mut nodes = [0u64; 65536];
        let mut memo = [0u64; 65536];
        let rows = &self.rows[..self.n];
        let costs = &self.costs[..self.n];
        match picker::pick(rows, costs, &mut nodes[..room], &mut memo[..memory]) {
            Ok(Picked { set, cost, need }) => {
                let mask = set.word();
                println!(rt; "{name}: mask {mask}, cost {cost}, need {need}")
            }
            Err(refusal) => println!(rt; "{name}: {refusal}"),
        }
    }
}
