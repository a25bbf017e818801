// The components, found from who reaches whom.
ghost use Rattle.std.specs.Prelude.{◌≡◌, Bool, ◌&&◌, ℕ, ◌≤◌, ◌<◌, T, length, get_or};
ghost use Rattle.masks.specs.Sets.{bit, number};
ghost use Rattle.graphs.specs.Graph.{edge};
ghost use Rattle.graphs.specs.Components.{Component, Components, Lowest, inside};
ghost use Rattle.graphs.specs.Work.{Reaching, Around, Leads, NextComponent};

use super::{Graph, reach_rows};
use masks::{Mask, Vertex};
use std::marker::Model;

// A component: the graph that it is one of, its members, and the lowest of them. That it is one is told without its walks, so that there is one proof of it;
// `part-component` of proofs/Whole gives them back.
#[derive(Clone, Copy)]
pub struct Part<'a> {
    pub graph: Graph<'a>,
    pub members: Mask,
    pub lowest: Vertex,
    ghost whole: { ∥ Component (edge graph.rows.now) (number members) ∥₁ },
    ghost led: { Lowest (number members) lowest.0 },
}

// The components of a graph that are still to come, by lowest flip-flop. In contracts they are the rows of the graph and the list of the components' sets.
#[derive(Drop)]
pub struct EachPart<'a> {
    graph: Graph<'a>,
    reached: [u64; 64],
    from: usize,
}

impl<'a> Graph<'a> {
    // All its components, by lowest flip-flop.
    pub fn components(self) -> EachPart<'a>
        ensures same { result.rows ≡ self.entry.rows.now }
        ensures all { Components (edge self.entry.rows.now) result.left }
    {
        EachPart {
            graph: self,
            reached: reach_rows(self.rows),
            from: 0,
        }
    }
}

impl<'a> Model for EachPart<'a> {
    ghost use Rattle.graphs.specs.Graph.{edge};
    ghost use Rattle.graphs.specs.Coming.{Coming, coming_from};
    ghost use Rattle.graphs.specs.Work.{Reaching};

    ghost Value = { Coming };

    ghost view = { λ p. coming_from p.graph.rows.now p.reached p.from };

    ghost invariant = { λ p. Reaching (edge p.graph.rows.now) p.reached };
}

impl<'a> Iterator for EachPart<'a> {
    ghost use Rattle.std.specs.Iterator.{item_count};
    ghost use Rattle.graphs.specs.Coming.{NextPart};

    type Item = Part<'a>;

    ghost next_gives = { NextPart };

    ghost remaining = { item_count (λ c. c.left) };

    fn next(&mut self) -> Option<Part<'a>> {
        let graph = self.graph;
        let lowest = next_component(&self.reached, graph.len(), self.from)?;
        let members = component_around(&self.reached, lowest);
        self.from = lowest.0 + 1;
        Some(Part {
            graph,
            members,
            lowest,
        })
    }
}

// The lowest flip-flop at or above from that is the lowest of a component, or None where there is none.
// By `for`, since of a `find` over the numbers from `from` on the proof doesn't close.
pub fn next_component(reached: &[u64; 64], n: usize, from: usize) -> Option<Vertex>
    requires { n ≤ 64 }
    ensures { (E : ℕ → ℕ → Bool) → Reaching E reached.now → NextComponent E n from result }
{
    for v in from..n {
        if leads(reached, Vertex(v)) {
            return Some(Vertex(v));
        }
    }
    None
}

// Whether v is the lowest of a component. One that is on no loop is told by its own row.
fn leads(reached: &[u64; 64], v: Vertex) -> bool
    requires { v.0 < 64 }
    ensures { (E : ℕ → ℕ → Bool) → Reaching E reached.now → Leads E v.0 result }
{
    if !Mask::row(reached, v).has(v) {
        return false;
    }
    component_around(reached, v).lowest() == Some(v)
}

// Those that v reaches and is reached by.
pub fn component_around(reached: &[u64; 64], v: Vertex) -> Mask
    requires { v.0 < 64 }
    ensures { (E : ℕ → ℕ → Bool) → Reaching E reached.now → Around E v.0 (number result) }
{
    holders(reached, Mask::row(reached, v), v)
}

// Those of a set whose rows hold v.
pub fn holders(rows: &[u64], among: Mask, v: Vertex) -> Mask
    requires { (v.0 < 64) × (length rows.now ≤ 64) × ((u : ℕ) → u < 64 → T (bit (number among) u) → u < length rows.now) }
    ensures { (u : ℕ) → bit (number result) u ≡ (bit (number among) u && bit (get_or rows.now u 0) v.0) }
{
    let mut found = Mask::none();
    for u in among.members() {
        if Mask::row(rows, u).has(v) {
            found = found.put(u);
        }
    }
    found
}

// Where the edges of a member lead inside its component.
pub fn inner_row(rows: &[u64], members: Mask, v: Vertex) -> Mask
    requires { (v.0 < 64) × (v.0 < length rows.now) × T (bit (number members) v.0) }
    ensures { (w : ℕ) → bit (number result) w ≡ inside (edge rows.now) (number members) v.0 w }
{
    Mask::row(rows, v).meet(members).cut(v)
}
