// The numbers that a block file has many of: costs of four bytes and rows of eight.
ghost use Rattle.std.specs.Prelude.{◌≡◌, ◌≤◌, ◌<◌, ◌^◌, ℕ};

// How many bytes a cost has.
pub const COST: usize = 4;

// How many bytes a row has.
pub const ROW: usize = 8;

// A number that a file has in a fixed number of bytes.
pub trait Number: Copy {
    ghost width: { ℕ };

    ghost value: { Self → ℕ };

    // How many bytes it has; a function, since an associated constant would want a second ghost member.
    fn width() -> usize
        ensures { (result ≡ width) × (width ≤ 8) };

    // The number of which this is the value.
    fn of(number: u64) -> Self
        requires { number < 256 ^ width }
        ensures { value result ≡ number };

    // Its value.
    fn value(self) -> u64
        ensures { result ≡ value self };
}

impl Number for u32 {
    ghost width = { 4 };

    ghost value = { λ x. x };

    fn width() -> usize {
        COST
    }

    fn of(number: u64) -> u32 {
        number as u32
    }

    fn value(self) -> u64 {
        self as u64
    }
}

impl Number for u64 {
    ghost width = { 8 };

    ghost value = { λ x. x };

    fn width() -> usize {
        ROW
    }

    fn of(number: u64) -> u64 {
        number
    }

    fn value(self) -> u64 {
        self
    }
}
