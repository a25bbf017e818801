// Numbers as bytes, low byte first.
ghost use Rattle.std.specs.Prelude.{◌≡◌, ◌++◌, ◌+◌, ◌-◌, ◌≤◌, length, take, drop, replicate};
ghost use Rattle.std.proofs.Math.Seq.{paste};
ghost use Rattle.blockfile.specs.Layout.{bytes, value};

// The number of `width` bytes that starts at `at`.
pub fn number_at(file: &[u8], at: usize, width: usize) -> u64
    requires { (at + width ≤ length file.now) × (width ≤ 8) }
    ensures { result ≡ value (take width (drop at file.now)) }
{
    u64::from_le_bytes(padded(&file[at..at + width]))
}

// At most eight bytes, and zeros behind them.
fn padded(part: &[u8]) -> [u8; 8]
    requires { length part.now ≤ 8 }
    ensures { result ≡ part.now ++ replicate (8 - length part.now) 0 }
{
    let mut bytes = [0u8; 8];
    bytes[..part.len()].copy_from_slice(part);
    bytes
}

// Puts the number there: its eight bytes as far as they go, and zeros behind them.
pub fn put_number(out: &mut [u8], at: usize, width: usize, number: u64)
    requires { at + width ≤ length out.old }
    ensures { out.new ≡ paste out.old at (bytes width number) width }
{
    let low = width.min(8);
    out[at..at + low].copy_from_slice(&number.to_le_bytes()[..low]);
    out[at + low..at + width].fill(0);
}
