// The parts of a join of two functions: joins that need no steps, and the branches of two nodes.
ghost use Rattle.nodes.specs.Work.{EndsPromise};

use super::Node;
use super::connective::Connective;
use masks::Vertex;

// The branches of two nodes at the lower variable. A node of a larger variable is its own branch on both sides.
#[derive(Clone, Copy)]
pub struct Parts {
    // the lower variable
    pub v: Vertex,
    // the low and the high branch of the one node, and of the other
    pub a0: Node,
    pub a1: Node,
    pub b0: Node,
    pub b1: Node,
}

// The join where one code is a constant or both are the same.
pub fn ends<C: Connective>(a: Node, b: Node) -> Option<Node>
    ensures { EndsPromise C.or a.0 b.0 result }
{
    if a == C::unit() || b == C::zero() {
        return Some(b);
    }
    if b == C::unit() || a == C::zero() || a == b {
        return Some(a);
    }
    None
}
