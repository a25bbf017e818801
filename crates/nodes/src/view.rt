// Nodes in order, to be read.
ghost use Rattle.std.specs.Prelude.{◌≡◌};
ghost use Rattle.masks.specs.Sets.{number};
ghost use Rattle.nodes.specs.Codes.{Held};
ghost use Rattle.nodes.specs.Order.{IsTable};
ghost use Rattle.nodes.specs.Promise.{LookPromise, ValuePromise};
ghost use Rattle.nodes.specs.Rooms as rooms;

use super::words::Word;
use super::{Node, Shape, used};
use masks::Mask;

// What a code is, in any room that holds it.
pub fn look(nodes: &[u64], c: Node) -> Shape
    requires { Held nodes.now 0 c.0 }
    ensures { LookPromise nodes.now c.0 result }
{
    if c == Node::OFF {
        return Shape::Off;
    }
    if c == Node::ON {
        return Shape::On;
    }
    let w = Word::at(nodes, c);
    Shape::Branch(w.variable(), w.low(), w.high())
}

// A room whose nodes are in order, to be read.
#[derive(Clone, Copy)]
pub struct Nodes<'a> {
    // the words of nodes
    pub words: &'a [u64],
    ghost table: { IsTable words.now },
}

impl<'a> Nodes<'a> {
    // What a code is.
    pub fn look(self, c: Node) -> Shape
        requires { Held self.words.now 0 c.0 }
        ensures { LookPromise self.entry.words.now c.0 result }
    {
        look(self.words, c)
    }

    // The function's value where exactly `kept` is kept: down its tree, a decision at a time, until a constant is met.
    pub fn value(self, c: Node, kept: Mask) -> bool
        requires { Held self.words.now 0 c.0 }
        ensures { ValuePromise self.entry.words.now c.0 (number kept) result }
    {
        let mut at = c;
        loop {
            match self.look(at) {
                Shape::Off => return false,
                Shape::On => return true,
                Shape::Branch(v, low, high) => {
                    at = if kept.has(v) { high } else { low };
                }
            }
        }
    }

    // The number of words in use.
    pub fn used(self) -> usize
        ensures { result ≡ rooms.used self.entry.words.now }
    {
        used(self.words)
    }
}
