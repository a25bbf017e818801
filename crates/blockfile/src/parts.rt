// The parts of a block file, each as its own slice.
ghost use Rattle.std.specs.Prelude.{◌≡◌, ◌++◌, ◌-◌, ◌*◌, ◌≤◌, ◌<◌, length, map, drop, replicate};
ghost use Rattle.blockfile.specs.Layout.{heading, spelled, numbers};

use super::bytes::{number_at, put_number};
use super::number::Number;

// The n rows of a file, out of the part that starts with them.
pub fn rows_of(part: &[u8], n: usize) -> [u64; 64]
    requires { (8 * n ≤ length part.now) × (n ≤ 64) }
    ensures { result ≡ numbers 8 n part.now ++ replicate (64 - n) 0 }
{
    let mut rows = [0u64; 64];
    fill(part, &mut rows[..n]);
    rows
}

// As many numbers as there are places, out of the part that starts with them.
pub fn fill<N: Number>(part: &[u8], found: &mut [N])
    requires { N.width * length found.old ≤ length part.now }
    ensures { map N.value found.new ≡ numbers N.width (length found.old) part.now }
{
    let width = N::width();
    for v in 0..found.len() {
        found[v] = N::of(number_at(part, width * v, width));
    }
}

// Mark, version and count.
pub fn write_heading(n: usize, part: &mut [u8])
    requires { (length part.old ≡ 6) × (n ≤ 64) }
    ensures { part.new ≡ heading n }
{
    part.copy_from_slice(&[b'F', b'V', b'G', 1, 0, n as u8]);
}

// The numbers, over the whole part.
pub fn spell<N: Number>(numbers: &[N], part: &mut [u8])
    requires { length part.old ≡ N.width * length numbers.now }
    ensures { part.new ≡ spelled N.width (map N.value numbers.now) }
{
    let width = N::width();
    for v in 0..numbers.len() {
        put_number(part, width * v, width, numbers[v].value());
    }
}
