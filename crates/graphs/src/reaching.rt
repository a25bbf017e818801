// Who reaches whom, on whole rows.
ghost use Rattle.std.specs.Prelude.{◌≡◌, ℕ, ◌≤◌, ◌<◌, length, get_or};
ghost use Rattle.graphs.specs.Graph.{edge, plain};
ghost use Rattle.graphs.specs.Work.{taken_in, Reaching};

use masks::{Mask, Vertex};

// Who reaches whom in the graph as lent: bit w of row u is set where a walk goes from u to w. The rows past the last are 0.
pub fn reach_rows(rows: &[u64]) -> [u64; 64]
    requires { length rows.now ≤ 64 }
    ensures { (length result ≡ 64) × Reaching (edge rows.now) result }
{
    let n = rows.len();
    let mut reached = [0u64; 64];
    drop_selves(rows, &mut reached[..n]);
    for k in 0..n {
        take_in(&mut reached, n, Vertex(k));
    }
    reached
}

// The rows with self edges dropped, in as many rows that are lent. They are rows of any words: nothing is asked of their bits.
pub fn drop_selves(rows: &[u64], outs: &mut [u64])
    requires { (length outs.old ≡ length rows.now) × (length rows.now ≤ 64) }
    ensures { outs.new ≡ plain rows.now }
{
    for v in 0..rows.len() {
        Mask::row(rows, Vertex(v))
            .cut(Vertex(v))
            .set_row(outs, Vertex(v));
    }
}

// Each of the first n rows that holds k takes row k in. The others are 0.
fn take_in(reached: &mut [u64], n: usize, k: Vertex)
    requires in_bounds { (k.0 < n) × (n ≤ 64) × (n ≤ length reached.old) }
    requires rest_is_zero { (u : ℕ) → n ≤ u → get_or reached.old u 0 ≡ 0 }
    ensures { (u : ℕ) → get_or reached.new u 0 ≡ taken_in k.0 reached.old u }
{
    let taken = Mask::row(reached, k);
    if taken.is_empty() {
        return;
    }
    for u in 0..n {
        let row = Mask::row(reached, Vertex(u));
        if row.has(k) {
            row.join(taken).set_row(reached, Vertex(u));
        }
    }
}
