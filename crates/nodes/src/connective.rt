// OR and AND, the two operations that join functions.
ghost use Rattle.std.specs.Prelude.{◌≡◌, ◌^◌, Bool, true, false};
ghost use Rattle.masks.specs.Sets.{pick};

use super::Node;

// An operation that joins two functions. All that a join has to know of it is said by the one ghost member; the three constants are functions, since an
// associated constant would want a ghost member of its own.
pub trait Connective {
    // Whether it is OR; else it is AND.
    ghost or: { Bool };

    // The constant that leaves the other function as it is.
    fn unit() -> Node
        ensures { result.0 ≡ pick or 0 1 };

    // The constant that a join with it is, whatever the other function.
    fn zero() -> Node
        ensures { result.0 ≡ pick or 1 0 };

    // What tells its words in a memo from those of the other operation.
    fn mark() -> u64
        ensures { result ≡ pick or (2 ^ 34) 0 };
}

// 1 where one of two functions is.
pub struct Or;

// 1 where both of two functions are.
pub struct And;

impl Connective for Or {
    ghost or = { true };

    fn unit() -> Node {
        Node::OFF
    }

    fn zero() -> Node {
        Node::ON
    }

    fn mark() -> u64 {
        0x4_0000_0000
    }
}

impl Connective for And {
    ghost or = { false };

    fn unit() -> Node {
        Node::ON
    }

    fn zero() -> Node {
        Node::OFF
    }

    fn mark() -> u64 {
        0
    }
}
