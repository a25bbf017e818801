// Out-rows and in-rows side by side, and how the rules change them.
ghost use Rattle.std.specs.Prelude.{◌≡◌, ◌≢◌, ℕ, ◌≤◌, ◌<◌, ◌^◌, T, length, get_or};
ghost use Rattle.masks.specs.Sets.{pick, bit, put, cut, those, number};
ghost use Rattle.reduction.specs.Rules.{bare, fold_in, fold_out};
ghost use Rattle.reduction.specs.Work.{Beside, edges, Foldable, FoldedInto};

use masks::{Mask, Vertex};

// The in-neighbours of v. `graphs::holders` of all flip-flops is slower: its walk is not vectorized.
fn in_row(outs: &[u64], v: Vertex) -> Mask
    requires within { v.0 < 64 }
    requires few { length outs.now ≤ 64 }
    ensures { number result ≡ those (length outs.now) (λ u. bit (get_or outs.now u 0) v.0) }
{
    let mut found = Mask::none();
    for u in 0..outs.len() {
        if Mask::row(outs, Vertex(u)).has(v) {
            found = found.put(Vertex(u));
        }
    }
    found
}

// The in-rows that go with out-rows.
pub fn in_rows(outs: &[u64], ins: &mut [u64])
    requires even { length ins.old ≡ length outs.now }
    requires few { length outs.now ≤ 64 }
    requires fit { (v : ℕ) → get_or outs.now v 0 < 2 ^ length outs.now }
    ensures { Beside outs.now ins.new }
{
    for v in 0..outs.len() {
        in_row(outs, Vertex(v)).set_row(ins, Vertex(v));
    }
}

// A row of the other side once v is folded into u: u stands where v stood.
fn led(row: Mask, u: Vertex, v: Vertex) -> Mask
    requires { (u.0 < 64) × (v.0 < 64) }
    ensures { number result ≡ cut (pick (bit (number row) v.0) (put (number row) u.0) (number row)) v.0 }
{
    if row.has(v) { row.put(u).cut(v) } else { row }
}

// Gives u the row of v too, without v, and empties the row of v. No other row than u's holds v.
fn gain(rows: &mut [u64], u: Vertex, v: Vertex)
    requires within { (u.0 < length rows.old) × (v.0 < length rows.old) }
    requires few { length rows.old ≤ 64 }
    requires other { u.0 ≢ v.0 }
    requires only { (a : ℕ) → T (bit (get_or rows.old a 0) v.0) → a ≡ u.0 }
    ensures { rows.new ≡ (fold_in u.0 v.0 (edges rows.old)).rows }
{
    Mask::row(rows, u)
        .join(Mask::row(rows, v))
        .cut(v)
        .set_row(rows, u);
    rows[v.0] = 0;
}

// Puts u in the place of v, in every row, and empties the row of v. Where u is v, every row only loses v.
fn lead(rows: &mut [u64], u: Vertex, v: Vertex)
    requires within { (u.0 < length rows.old) × (v.0 < length rows.old) }
    requires few { length rows.old ≤ 64 }
    ensures { rows.new ≡ (fold_out u.0 v.0 (edges rows.old)).rows }
{
    for row in rows.iter_mut() {
        *row = led(Mask::of(*row), u, v).word();
    }
    rows[v.0] = 0;
}

// Removes v.
pub fn remove(outs: &mut [u64], ins: &mut [u64], v: Vertex)
    requires beside { Beside outs.old ins.old }
    requires within { v.0 < length outs.old }
    ensures rows { outs.new ≡ bare v.0 outs.old }
    ensures beside { Beside outs.new ins.new }
{
    lead(outs, v, v);
    lead(ins, v, v);
}

// Folds v into its one in-neighbour, and tells which. Rule 4 is this with the sides exchanged.
pub fn fold(outs: &mut [u64], ins: &mut [u64], v: Vertex) -> Vertex
    requires beside { Beside outs.old ins.old }
    requires within { v.0 < length outs.old }
    requires foldable { Foldable (length outs.old) (get_or ins.old v.0 0) v.0 }
    ensures { FoldedInto outs.old ins.old v.0 result.0 outs.new ins.new }
{
    let u = Mask::row(ins, v).lowest().unwrap();
    gain(outs, u, v);
    lead(ins, u, v);
    u
}
