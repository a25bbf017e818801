// Node words: a variable (8 bits), the code of the low and the code of the high branch (17 bits each).
ghost use Rattle.std.specs.Prelude.{◌≡◌, ◌-◌, ◌^◌, ◌≤◌, ◌<◌, eqb, length};
ghost use Rattle.masks.specs.Sets.{pick};
ghost use Rattle.nodes.specs.Codes as codes;
ghost use Rattle.nodes.specs.Packing.{packed, variable_of, low_of, high_of};

use super::Node;
use masks::Vertex;

// The word of a node, as it stands in a room.
#[derive(Clone, Copy)]
pub struct Word(pub u64);

impl Word {
    // The word of the decision v with these branches.
    pub fn pack(v: Vertex, low: Node, high: Node) -> Word
        requires variable { v.0 < 2 ^ 8 }
        requires low { low.0 < 2 ^ 17 }
        requires high { high.0 < 2 ^ 17 }
        ensures { result.0 ≡ packed v.0 low.0 high.0 }
    {
        Word(((v.0 as u64) << 34) | ((low.0 << 17) | high.0))
    }

    // The word of the node that c is the code of.
    pub fn at(nodes: &[u64], c: Node) -> Word
        requires node { 2 ≤ c.0 }
        requires inside { c.0 - 2 < length nodes.now }
        ensures { result.0 ≡ codes.word nodes.now c.0 }
    {
        let s = (c.0 - 2) as usize;
        Word(nodes[s])
    }

    // The variable that is decided.
    #[tactic(auto, unfolding(crate::specs::Packing::variable_of))]
    pub fn variable(self) -> Vertex
        ensures { result.0 ≡ variable_of self.0 }
    {
        Vertex((self.0 >> 34) as usize)
    }

    // The branch where it is not kept.
    #[tactic(auto, using(std::proofs::lemmas::Nat::and_mask), unfolding(crate::specs::Packing::low_of))]
    pub fn low(self) -> Node
        ensures { result.0 ≡ low_of self.0 }
    {
        Node((self.0 >> 17) & 0x1_ffff)
    }

    // The branch where it is kept.
    #[tactic(auto, using(std::proofs::lemmas::Nat::and_mask), unfolding(crate::specs::Packing::high_of))]
    pub fn high(self) -> Node
        ensures { result.0 ≡ high_of self.0 }
    {
        Node(self.0 & 0x1_ffff)
    }

    // The branches at v of the node c, whose word this is. A node of a larger variable is its own branch on both sides.
    pub fn branches(self, v: Vertex, c: Node) -> (Node, Node)
        ensures low { result.0.0 ≡ pick (eqb (variable_of self.0) v.0) (low_of self.0) c.0 }
        ensures high { result.1.0 ≡ pick (eqb (variable_of self.0) v.0) (high_of self.0) c.0 }
    {
        if self.variable() == v {
            (self.low(), self.high())
        } else {
            (c, c)
        }
    }
}

// A number below 2^32 that differs much where words differ little.
fn mixed(w: u64) -> u64
    requires { w < 2 ^ 42 }
    ensures { result ≡ codes.mixed w }
{
    let low = w & 0x1f_ffff;
    let high = w >> 21;
    ((low * 0x279_e377_9b97 + high * 0x1a5_5c32_1e6b) >> 10) & 0xffff_ffff
}

// Where a word belongs among n places: a node's in the node room, a join's key in the memo, which are two kinds of numbers below 2^42.
pub fn home(w: u64, n: usize) -> usize
    requires { (w < 2 ^ 42) × (0 < n) }
    ensures { (result ≡ codes.home w n) × (result < n) }
{
    let h = mixed(w) as usize;
    if n < 0x1_0000_0000 {
        return (h * n) >> 32;
    }
    h
}
