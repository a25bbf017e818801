// The blocks that are tried.
ghost use Rattle.std.specs.Prelude.{◌≤◌, ◌<◌};

use masks::{Mask, Vertex};

// A block: the first n rows and costs. There is place for one flip-flop more than any operation takes.
#[derive(Drop)]
pub struct Trial {
    pub n: usize,
    pub rows: [u64; 65],
    pub costs: [u32; 65],
    ghost few: { n ≤ 65 },
}

impl Trial {
    // These rows, and a cost of 1 each.
    pub fn ones(n: usize, rows: [u64; 65]) -> Trial
        requires { n ≤ 65 }
    {
        Trial {
            n,
            rows,
            costs: [1; 65],
        }
    }
}

// Each has an edge to the next, the last to the first.
pub fn ring(n: usize) -> Trial
    requires { n ≤ 64 }
{
    Trial::ones(n, ring_rows(n))
}

// A ring, and each has an edge to the one before as well.
pub fn two_way_ring(n: usize) -> Trial
    requires { n ≤ 64 }
{
    let mut rows = ring_rows(n);
    for v in 0..n {
        let next = Vertex(after(v, n));
        let row = Mask::row(&rows, next).put(Vertex(v));
        row.set_row(&mut rows, next);
    }
    Trial::ones(n, rows)
}

fn ring_rows(n: usize) -> [u64; 65]
    requires { n ≤ 64 }
{
    let mut rows = [0u64; 65];
    for v in 0..n {
        let next = Mask::none().put(Vertex(after(v, n)));
        next.set_row(&mut rows, Vertex(v));
    }
    rows
}

fn after(v: usize, n: usize) -> usize
    requires { (v < n) × (n ≤ 64) }
    ensures { result < 64 }
{
    if v + 1 < n {
        return v + 1;
    }
    0
}

// Edges from each of n to every other.
pub fn all_edges(n: usize) -> Trial
    requires { n ≤ 64 }
{
    let mut rows = [0u64; 65];
    for v in 0..n {
        Mask::below(n).cut(Vertex(v)).set_row(&mut rows, Vertex(v));
    }
    Trial::ones(n, rows)
}

// 32 pairs, v and v + 32, with edges both ways.
pub fn pairs() -> Trial {
    let mut rows = [0u64; 65];
    for v in 0..64 {
        let other = Mask::none().put(Vertex((v + 32) % 64));
        other.set_row(&mut rows, Vertex(v));
    }
    Trial::ones(64, rows)
}

// A block in which the last of k passes still changes a member of B. B is a chain, cut into groups of four, each with a cheap flip-flop x in front (0, 5, 10
// ..). With every x left out there is no loop, but the walk along the chain passes all of B. One pass fewer finds a loop there, and takes a member of B too.
pub fn chain(n: usize) -> Trial
    requires { n ≤ 62 }
{
    let mut rows = [0u64; 65];
    let mut costs = [0u32; 65];
    for v in 0..n {
        chain_row(v, n).set_row(&mut rows, Vertex(v));
        costs[v] = chain_cost(v, n);
    }
    Trial { n, rows, costs }
}

// Row v of a chain of n; a type for that pair would be longer than the two functions that take it. Each leads to the next. The last of a group also leads past
// the next x, on along the chain, and 0 to 2. Each of B leads back to an x. No edge leads out of the block.
fn chain_row(v: usize, n: usize) -> Mask
    requires { (v < n) × (n ≤ 62) }
{
    let mut row = Mask::none().put(Vertex(v + 1));
    if v == 0 || v % 5 == 4 {
        row = row.put(Vertex(v + 2));
    }
    if v % 5 != 0 {
        row = row.put(Vertex(back(v)));
    }
    row.meet(Mask::below(n))
}

// The x of v's group, or, where v is the first of its group, the x before that one, if there is any.
fn back(v: usize) -> usize
    requires { v < 64 }
    ensures { result < 64 }
{
    if v < 2 {
        return 0;
    }
    (v - 2) / 5 * 5
}

// 2 for an x and 1 for each end of B. Any other of B costs 100 and the number of members from there to the end of B: 102 is the least.
fn chain_cost(v: usize, n: usize) -> u32
    requires { (v < n) × (n ≤ 62) }
{
    if v % 5 == 0 {
        return 2;
    }
    if v == 1 || v + 1 == n {
        return 1;
    }
    (101 + n - n / 5 - v + v / 5) as u32
}
