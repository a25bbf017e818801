// Flip-flops by number, and sets of them as masks.
#![tactic(auto)]

mod walk;

ghost use Rattle.std.specs.Prelude.{◌≡◌, ◌-◌, ◌≤◌, ◌<◌, ◌^◌, eqb, length, get_or, set};
ghost use Rattle.std.specs.Int.Bits.{bit_and, bit_or};
ghost use Rattle.std.specs.Int.Count.{ones};
ghost use Rattle.masks.specs.Sets.{bit, put, cut, minus, number};

pub use walk::Members;

// A flip-flop's number. It keeps no bound, and nor does a number of flip-flops: what a function needs of it is as often the length of its rows as 64, and
// definitions make one of any number.
#[derive(Clone, Copy, Debug, PartialEq, Eq, PartialOrd, Ord)]
pub struct Vertex(pub usize);

// A set of flip-flops. Only this crate looks into the word, which `of` and `word` take and give: a conversion by `From` would say less of what it is.
// It has no Model: with one, a struct that holds a Mask is no plain data, and its parts cannot be moved while it is lent.
#[derive(Clone, Copy, Debug, PartialEq, Eq, PartialOrd, Ord)]
pub struct Mask(u64);

impl Mask {
    // The empty set.
    #[tactic(auto, unfolding(crate::specs::Sets::number))]
    pub fn none() -> Mask
        ensures { number result ≡ 0 }
    {
        Mask(0)
    }

    // The set that a number stands for.
    #[tactic(auto, unfolding(crate::specs::Sets::number))]
    pub fn of(word: u64) -> Mask
        ensures { number result ≡ word }
    {
        Mask(word)
    }

    // The number that stands for the set.
    #[tactic(auto, unfolding(crate::specs::Sets::number))]
    pub fn word(self) -> u64
        ensures { result ≡ number self }
    {
        self.0
    }

    // All flip-flops below n.
    #[tactic(auto, unfolding(crate::specs::Sets::number))]
    pub fn below(n: usize) -> Mask
        requires { n ≤ 64 }
        ensures { number result ≡ 2 ^ n - 1 }
    {
        if n == 64 {
            return Mask(u64::MAX);
        }
        Mask((1u64 << n) - 1)
    }

    // The set that row v of the rows as lent stands for.
    #[tactic(auto, unfolding(crate::specs::Sets::number))]
    pub fn row(rows: &[u64], v: Vertex) -> Mask
        requires { v.0 < length rows.now }
        ensures { number result ≡ get_or rows.now v.0 0 }
    {
        Mask(rows[v.0])
    }

    // This set becomes row v of the rows that are lent.
    #[tactic(auto, unfolding(crate::specs::Sets::number))]
    pub fn set_row(self, rows: &mut [u64], v: Vertex)
        requires { v.0 < length rows.old }
        ensures { rows.new ≡ set rows.old v.0 (number self) }
    {
        rows[v.0] = self.0;
    }

    // Whether v is in the set.
    #[tactic(auto, unfolding(crate::specs::Sets::number))]
    pub fn has(self, v: Vertex) -> bool
        requires { v.0 < 64 }
        ensures { result ≡ bit (number self) v.0 }
    {
        (self.0 >> v.0) & 1 == 1
    }

    // The set with v.
    #[tactic(auto, unfolding(crate::specs::Sets::number))]
    pub fn put(self, v: Vertex) -> Mask
        requires { v.0 < 64 }
        ensures { number result ≡ put (number self) v.0 }
    {
        Mask(self.0 | (1u64 << v.0))
    }

    // The set without v.
    #[tactic(auto, unfolding(crate::specs::Sets::number))]
    pub fn cut(self, v: Vertex) -> Mask
        requires { v.0 < 64 }
        ensures { number result ≡ cut (number self) v.0 }
    {
        Mask(self.0 & !(1u64 << v.0))
    }

    // All that are in either set.
    #[tactic(auto, unfolding(crate::specs::Sets::number))]
    pub fn join(self, other: Mask) -> Mask
        ensures { number result ≡ bit_or (number self) (number other) }
    {
        Mask(self.0 | other.0)
    }

    // All that are in both sets.
    #[tactic(auto, unfolding(crate::specs::Sets::number))]
    pub fn meet(self, other: Mask) -> Mask
        ensures { number result ≡ bit_and (number self) (number other) }
    {
        Mask(self.0 & other.0)
    }

    // All that are in this set and not in the other.
    #[tactic(auto, unfolding(crate::specs::Sets::number))]
    pub fn without(self, other: Mask) -> Mask
        ensures { number result ≡ minus (number self) (number other) }
    {
        Mask(self.0 & !other.0)
    }

    // Whether no flip-flop is in the set.
    #[tactic(auto, unfolding(crate::specs::Sets::number))]
    pub fn is_empty(self) -> bool
        ensures { result ≡ eqb (number self) 0 }
    {
        self.0 == 0
    }

    // How many flip-flops are in the set.
    #[tactic(auto, unfolding(crate::specs::Sets::number))]
    pub fn count(self) -> u32
        ensures { result ≡ ones (number self) }
    {
        u64::count_ones(self.0)
    }
}
