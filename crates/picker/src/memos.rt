// The memo room of the walk to the lightest set, two words for a node: its code above the 40 bits of its best set's cost, and the set.
ghost use Rattle.std.specs.Prelude.{◌≡◌, ◌≤◌, ◌<◌, ◌^◌, length};
ghost use Rattle.picker.specs.Work.{Recalled, Remembered};

use super::best::Best;
use masks::Mask;
use nodes::Node;

// The bits of a cost: 2^40 is above every cost of a set.
const BITS: u32 = 40;

// What is remembered of nodes, in a room for one node at least.
#[derive(Drop)]
pub struct Memo<'a> {
    pub words: &'a mut [u64],
    ghost pairs: { 2 ≤ length words.now },
}

impl<'a> Memo<'a> {
    // The best set of a node, if it is remembered.
    pub fn recall(&self, node: Node) -> Option<Best>
        requires { node.0 < 2 ^ 17 }
        ensures { Recalled self.now.words.now node.0 result }
    {
        let at = 2 * pair(self.words.len() / 2, node);
        let word = self.words[at];
        if word >> BITS != node.0 {
            return None;
        }
        Some(Best {
            cost: word & ((1 << BITS) - 1),
            set: Mask::of(self.words[at + 1]),
        })
    }

    // The best set of a node is kept, in place of what its words held.
    pub fn remember(&mut self, node: Node, best: Best)
        requires code { node.0 < 2 ^ 17 }
        requires small { best.cost < 2 ^ 40 }
        ensures same { self.new.words.ghost_name ≡ self.old.words.ghost_name }
        ensures kept { Remembered self.old.words.now self.new.words.now node.0 best }
    {
        let at = 2 * pair(self.words.len() / 2, node);
        self.words[at] = (node.0 << BITS) | best.cost;
        self.words[at + 1] = best.set.word();
    }
}

// Which of so many pairs of words a node has: its own where there are enough, else one that it shares.
fn pair(pairs: usize, node: Node) -> usize
    requires { (0 < pairs) × (node.0 < 2 ^ 17) }
    ensures { result < pairs }
{
    let code = node.0 as usize;
    if code < pairs {
        return code;
    }
    let mixed = (code * 0x9e37_79b1) & 0xffff_ffff;
    (mixed * pairs) >> 32
}
