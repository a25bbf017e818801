// The checks that every operation on rows makes, and what a refusal is; who reaches whom, and the components.
#![tactic(auto)]

mod block;
mod component;
mod reaching;
mod refusal;

ghost use Rattle.std.specs.Prelude.{◌≡◌, ◌≤◌, length};
ghost use Rattle.graphs.specs.Work.{IsFirstWide};
ghost use Rattle.graphs.specs.Refusals.{first, checks, refusal_of};

pub use block::{Block, Graph};
pub use component::{EachPart, Part, component_around, holders, inner_row, next_component};
use masks::{Mask, Vertex};
pub use reaching::{drop_selves, reach_rows};
pub use refusal::Refusal;

// Refusals 1, 2 and 3, in this order. An operation without costs passes the number of rows for theirs.
pub fn check(rows: &[u64], costs: usize) -> Result<(), Refusal>
    ensures { refusal_of result ≡ first (checks rows.now costs) }
{
    let n = rows.len();
    if 64 < n {
        return Err(Refusal::TooManyRows);
    }
    if costs != n {
        return Err(Refusal::UnequalCosts);
    }
    match first_wide(rows) {
        Some(row) => Err(Refusal::RowOutside(row)),
        None => Ok(()),
    }
}

// The lowest row with a bit at the number of rows or above.
fn first_wide(rows: &[u64]) -> Option<usize>
    requires { length rows.now ≤ 64 }
    ensures { IsFirstWide rows.now result }
{
    let all = Mask::below(rows.len());
    for v in 0..rows.len() {
        if !Mask::row(rows, Vertex(v)).without(all).is_empty() {
            return Some(v);
        }
    }
    None
}
