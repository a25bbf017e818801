// The two lent rooms: nodes in order, and the joins that are known of them.
ghost use Rattle.std.specs.Prelude.{◌≡◌, ◌^◌, ◌≤◌, ◌<◌, suc, true, false, length};
ghost use Rattle.trees.specs.Tree.{off, on, br};
ghost use Rattle.nodes.specs.Codes.{variables, Held};
ghost use Rattle.nodes.specs.Order.{IsTable, IsMemo};
ghost use Rattle.nodes.specs.Promise.{Outcome, MakePromise, Joinable, Joined};
ghost use Rattle.nodes.specs.Work.{Known, Splits};

use super::connective::{And, Connective, Or};
use super::joins::{Parts, ends};
use super::memos::{recall, remember};
use super::probes::probe;
use super::words::Word;
use super::{Full, MEMO, Node};
use masks::Vertex;

// A node room and a memo room that are lent together: the nodes are in order, and what the memo has of joins is right of them. The memo may have any length.
// The methods say of each room by itself that it is the same slice afterwards, since their callers use the two facts apart.
#[derive(Drop)]
pub struct Rooms<'a> {
    // the words of nodes
    pub nodes: &'a mut [u64],
    // the words of known joins
    pub memo: &'a mut [u64],
    ghost table: { IsTable nodes.now },
    ghost right: { IsMemo nodes.now memo.now },
}

impl<'a> Rooms<'a> {
    // The decision v with these branches: the branch itself where both are the same, the node that is there, or a new one.
    pub fn make(&mut self, v: Vertex, low: Node, high: Node) -> Result<Node, Full>
        requires variable { v.0 < variables }
        requires low { Held self.old.nodes.now (suc v.0) low.0 }
        requires high { Held self.old.nodes.now (suc v.0) high.0 }
        ensures same_nodes { self.new.nodes.ghost_name ≡ self.old.nodes.ghost_name }
        ensures same_memo { self.new.memo.ghost_name ≡ self.old.memo.ghost_name }
        ensures memo { self.new.memo.now ≡ self.old.memo.now }
        ensures made { MakePromise self.old.nodes.now self.new.nodes.now v.0 low.0 high.0 result }
    {
        if low == high {
            return Ok(low);
        }
        let w = Word::pack(v, low, high);
        let nodes = &mut *self.nodes;
        // by `let .. else`: of `ok_or` and `?` nothing is known but that it is an error
        let Some(s) = probe(nodes, w.0) else {
            return Err(Full);
        };
        // a node that is there gets the word that it has
        nodes[s] = w.0;
        Ok(Node(s as u64 + 2))
    }

    // The function that is 1 where v is kept.
    pub fn variable(&mut self, v: Vertex) -> Result<Node, Full>
        requires { v.0 < variables }
        ensures same_nodes { self.new.nodes.ghost_name ≡ self.old.nodes.ghost_name }
        ensures same_memo { self.new.memo.ghost_name ≡ self.old.memo.ghost_name }
        ensures memo { self.new.memo.now ≡ self.old.memo.now }
        ensures made { Outcome self.old.nodes.now self.new.nodes.now (br v.0 off on) result }
    {
        self.make(v, Node::OFF, Node::ON)
    }

    // The OR of two functions.
    pub fn or(&mut self, a: Node, b: Node) -> Result<Node, Full>
        requires left { Held self.old.nodes.now 0 a.0 }
        requires right { Held self.old.nodes.now 0 b.0 }
        ensures same_nodes { self.new.nodes.ghost_name ≡ self.old.nodes.ghost_name }
        ensures same_memo { self.new.memo.ghost_name ≡ self.old.memo.ghost_name }
        ensures size { length self.new.memo.now ≡ length self.old.memo.now }
        ensures joined { Joined true self.old.nodes.now self.new.nodes.now self.new.memo.now a.0 b.0 result }
    {
        self.joined::<Or>(a, b)
    }

    // The AND of two functions.
    pub fn and(&mut self, a: Node, b: Node) -> Result<Node, Full>
        requires left { Held self.old.nodes.now 0 a.0 }
        requires right { Held self.old.nodes.now 0 b.0 }
        ensures same_nodes { self.new.nodes.ghost_name ≡ self.old.nodes.ghost_name }
        ensures same_memo { self.new.memo.ghost_name ≡ self.old.memo.ghost_name }
        ensures size { length self.new.memo.now ≡ length self.old.memo.now }
        ensures joined { Joined false self.old.nodes.now self.new.nodes.now self.new.memo.now a.0 b.0 result }
    {
        self.joined::<And>(a, b)
    }

    // A join with a memo that is long enough, unless it needs no steps. Not by `with_memo`, which promises nothing of what the memo holds afterwards.
    fn joined<C: Connective>(&mut self, a: Node, b: Node) -> Result<Node, Full>
        requires left { Held self.old.nodes.now 0 a.0 }
        requires right { Held self.old.nodes.now 0 b.0 }
        ensures same_nodes { self.new.nodes.ghost_name ≡ self.old.nodes.ghost_name }
        ensures same_memo { self.new.memo.ghost_name ≡ self.old.memo.ghost_name }
        ensures size { length self.new.memo.now ≡ length self.old.memo.now }
        ensures joined { Joined C.or self.old.nodes.now self.new.nodes.now self.new.memo.now a.0 b.0 result }
    {
        if self.memo.len() < MEMO {
            if let Some(r) = ends::<C>(a, b) {
                return Ok(r);
            }
            // nothing is known in an empty memo; and since it is called here too, the compiler keeps `descend` apart and tells known joins without a call
            let mut own = [0u64; MEMO];
            let nodes = &mut *self.nodes;
            return descend_beside::<C>(nodes, &mut own, a, b);
        }
        self.join::<C>(a, b)
    }

    // OR or AND. Small, so that it is inlined where `descend` calls it: a known join costs no call there.
    #[cycle(descend_join)]
    fn join<C: Connective>(&mut self, a: Node, b: Node) -> Result<Node, Full>
        requires left { Held self.old.nodes.now 0 a.0 }
        requires right { Held self.old.nodes.now 0 b.0 }
        requires some { 0 < length self.old.memo.now }
        ensures same_nodes { self.new.nodes.ghost_name ≡ self.old.nodes.ghost_name }
        ensures same_memo { self.new.memo.ghost_name ≡ self.old.memo.ghost_name }
        ensures size { length self.new.memo.now ≡ length self.old.memo.now }
        ensures joined { Joined C.or self.old.nodes.now self.new.nodes.now self.new.memo.now a.0 b.0 result }
    {
        if let Some(r) = self.known::<C>(a, b) {
            return Ok(r);
        }
        self.descend::<C>(a, b)
    }

    // Down both nodes by the lower variable, one decision at a time, where the join is not known. The number of remaining variables falls at each call.
    #[cycle(descend_join)]
    fn descend<C: Connective>(&mut self, a: Node, b: Node) -> Result<Node, Full>
        requires left { Held self.old.nodes.now 0 a.0 }
        requires right { Held self.old.nodes.now 0 b.0 }
        requires some { 0 < length self.old.memo.now }
        requires nodes { (2 ≤ a.0) × (2 ≤ b.0) }
        ensures same_nodes { self.new.nodes.ghost_name ≡ self.old.nodes.ghost_name }
        ensures same_memo { self.new.memo.ghost_name ≡ self.old.memo.ghost_name }
        ensures size { length self.new.memo.now ≡ length self.old.memo.now }
        ensures joined { Joined C.or self.old.nodes.now self.new.nodes.now self.new.memo.now a.0 b.0 result }
    {
        let p = self.split(a, b);
        let low = self.join::<C>(p.a0, p.b0)?;
        let high = self.join::<C>(p.a1, p.b1)?;
        let r = self.make(p.v, low, high)?;
        remember::<C>(self.memo, a, b, r);
        Ok(r)
    }

    // The join where it needs no steps, or where the memo has it.
    fn known<C: Connective>(&self, a: Node, b: Node) -> Option<Node>
        requires some { 0 < length self.now.memo.now }
        requires small { (a.0 < 2 ^ 17) × (b.0 < 2 ^ 17) }
        ensures { Known self.now.memo.now C.or a.0 b.0 result }
    {
        // by a match: with `or_else` nothing is known of what the generic closure answers, and the proof doesn't close
        match ends::<C>(a, b) {
            Some(r) => Some(r),
            None => recall::<C>(self.memo, a, b),
        }
    }

    // The branches of two nodes at the lower variable.
    fn split(&self, a: Node, b: Node) -> Parts
        requires nodes { (2 ≤ a.0) × (2 ≤ b.0) }
        requires left { Held self.now.nodes.now 0 a.0 }
        requires right { Held self.now.nodes.now 0 b.0 }
        ensures { Splits self.now.nodes.now a.0 b.0 result }
    {
        let x = Word::at(self.nodes, a);
        let y = Word::at(self.nodes, b);
        let v = x.variable().min(y.variable());
        let (a0, a1) = x.branches(v, a);
        let (b0, b1) = y.branches(v, b);
        Parts { v, a0, a1, b0, b1 }
    }
}

// A join with another memo.
fn descend_beside<C: Connective>(
    nodes: &mut [u64],
    memo: &mut [u64],
    a: Node,
    b: Node,
) -> Result<Node, Full>
    requires { Joinable nodes.old memo.old a.0 b.0 × (0 < length memo.old) × (2 ≤ a.0) × (2 ≤ b.0) }
    ensures { Joined C.or nodes.old nodes.new memo.new a.0 b.0 result }
{
    let rooms = &mut Rooms { nodes, memo };
    rooms.descend::<C>(a, b)
}
