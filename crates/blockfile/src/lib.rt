// Block files: a reader and a writer.
#![tactic(auto)]

mod bytes;
mod number;
mod parts;

ghost use Rattle.std.specs.Prelude.{◌≡◌, ◌≤◌};
ghost use Rattle.std.proofs.Math.Option.{none};
ghost use Rattle.blockfile.specs.Layout.{count};
ghost use Rattle.blockfile.specs.Promise.{HeaderPromise, ReadPromise, WritePromise, header_lines};
ghost use Rattle.graphs.specs.Refusals.{first};

use bytes::number_at;
use graphs::Refusal;
use number::{COST, ROW};
use parts::{fill, rows_of, spell, write_heading};

// How many bytes mark, version and count have.
const HEADER: usize = 6;

// The count of a file, by its first six bytes, or refusal 5, 6 or 1.
pub fn read_header(file: &[u8]) -> Result<usize, Refusal>
    ensures { HeaderPromise file.now result }
{
    if file.len() < HEADER || !file.starts_with(b"FVG") {
        return Err(Refusal::Foreign);
    }
    if number_at(file, 3, 2) != 1 {
        return Err(Refusal::OtherVersion);
    }
    let n = number_at(file, 5, 1);
    if 64 < n {
        return Err(Refusal::TooManyRows);
    }
    Ok(n as usize)
}

// The block of a file, in the first n costs and rows. A refusal writes nothing.
pub fn read(file: &[u8], costs: &mut [u32], rows: &mut [u64]) -> Result<usize, Refusal>
    ensures { ReadPromise file.now costs.old rows.old result costs.new rows.new }
{
    let n = read_header(file)?;
    read_body(file, n, costs, rows)
}

// What follows the header. The rows are decoded beside the lent ones, since nothing may be written before refusal 3 is out.
fn read_body(file: &[u8], n: usize, costs: &mut [u32], rows: &mut [u64]) -> Result<usize, Refusal>
    requires { (n ≡ count file.now) × (n ≤ 64) × (first (header_lines file.now) ≡ none) }
    ensures { ReadPromise file.now costs.old rows.old result costs.new rows.new }
{
    let start = HEADER + COST * n;
    if file.len() != start + ROW * n {
        return Err(Refusal::OtherLength);
    }
    let found = rows_of(&file[start..], n);
    graphs::check(&found[..n], n)?;
    if costs.len() < n || rows.len() < n {
        return Err(Refusal::OutputTooShort);
    }
    fill(&file[HEADER..], &mut costs[..n]);
    rows[..n].copy_from_slice(&found[..n]);
    Ok(n)
}

// The block as a file, in the first 6 + 12n bytes. A refusal writes nothing.
pub fn write(rows: &[u64], costs: &[u32], out: &mut [u8]) -> Result<usize, Refusal>
    ensures { WritePromise rows.now costs.now out.old result out.new }
{
    graphs::check(rows, costs.len())?;
    let n = rows.len();
    let start = HEADER + COST * n;
    let end = start + ROW * n;
    if out.len() < end {
        return Err(Refusal::OutputTooShort);
    }
    write_heading(n, &mut out[..HEADER]);
    spell(costs, &mut out[HEADER..start]);
    spell(rows, &mut out[start..end]);
    Ok(end)
}
