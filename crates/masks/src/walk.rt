// The members of a set, one after the other.
ghost use Rattle.std.specs.Prelude.{◌≡◌};
ghost use Rattle.masks.specs.Sets.{number};
ghost use Rattle.masks.specs.Walk.{IsLowestIn};

use super::{Mask, Vertex};
use std::marker::Model;

impl Mask {
    // The lowest member, if there is one.
    pub fn lowest(self) -> Option<Vertex>
        ensures { IsLowestIn (number self) result }
    {
        self.members().next()
    }

    // The members, lowest first.
    pub fn members(self) -> Members
        ensures { result ≡ number self }
    {
        Members {
            left: self.word(),
            from: 0,
        }
    }
}

// The members of a set that are still to come, ascending. In contracts it is their set.
#[derive(Drop)]
pub struct Members {
    left: u64,
    from: usize,
}

impl Model for Members {
    ghost use Rattle.std.specs.Prelude.{ℕ};
    ghost use Rattle.masks.specs.Walk.{IsPast};

    ghost Value = { ℕ };

    ghost view = { λ m. m.left };

    ghost invariant = { λ m. IsPast m.left m.from };
}

impl Iterator for Members {
    ghost use Rattle.std.specs.Iterator.{item_count};
    ghost use Rattle.masks.specs.Walk.{members_of, Walks};

    type Item = Vertex;

    ghost next_gives = { Walks };

    ghost remaining = { item_count members_of };

    fn next(&mut self) -> Option<Vertex> {
        let left = Mask::of(self.left);
        for v in self.from..64 {
            if left.has(Vertex(v)) {
                self.left = left.cut(Vertex(v)).word();
                self.from = v + 1;
                return Some(Vertex(v));
            }
        }
        None
    }
}
