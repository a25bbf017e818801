// The depth-first search of a component.
ghost use Rattle.std.specs.Prelude.{◌≡◌, ℕ, ◌≤◌, ◌<◌, T, length, get_or};
ghost use Rattle.masks.specs.Sets.{bit, number};
ghost use Rattle.graphs.specs.Graph.{edge};
ghost use Rattle.graphs.specs.Components.{inside};
ghost use Rattle.arrayvec.specs.ArrayVec.{array_vec_len};
ghost use Rattle.cycles.specs.Work.{Marked, Finished, Visitable, VisitDone, Searched};

use arrayvec::ArrayVec;
use graphs::{Part, holders, inner_row};
use masks::{Mask, Vertex};

// B, and the flip-flops in the order in which their visits end, by their numbers, as the definitions' lists have them.
#[derive(Drop)]
pub struct Order {
    pub back: Mask,
    pub flops: ArrayVec<usize, 64>,
}

// A search on its way: those whose visit is over, and B and the order so far.
#[derive(Drop)]
struct Search<'a> {
    part: Part<'a>,
    over: Mask,
    order: Order,
}

impl<'a> Search<'a> {
    // The visit of v, where those of going are being visited already.
    fn visit(&mut self, v: Vertex, going: Mask)
        requires { Visitable v.0 (number going) self.old }
        ensures { VisitDone v.0 (number going) self.old self.new }
    {
        let on = going.put(v);
        let targets = inner_row(self.part.graph.rows, self.part.members, v);
        for w in targets.members() {
            if on.has(w) {
                self.mark(v);
            } else if !self.over.has(w) {
                self.visit(w, on);
            }
        }
        self.finish(v);
    }

    // An edge from u leads to one still being visited.
    fn mark(&mut self, u: Vertex)
        requires { u.0 < 64 }
        ensures { Marked u.0 self.old self.new }
    {
        self.order.back = self.order.back.put(u);
    }

    // The visit of v ends.
    fn finish(&mut self, v: Vertex)
        requires small { v.0 < 64 }
        requires room { array_vec_len self.old.order.flops < 64 }
        ensures { Finished v.0 self.old self.new }
    {
        self.over = self.over.put(v);
        self.order.flops.push(v.0);
    }
}

// The search of a component.
pub fn search_component(part: Part) -> Order
    ensures { Searched (edge part.entry.graph.rows.now) (length part.entry.graph.rows.now) (number part.entry.members) result }
{
    let mut search = Search {
        part,
        over: Mask::none(),
        order: Order {
            back: Mask::none(),
            flops: ArrayVec::new(),
        },
    };
    search.visit(part.lowest, Mask::none());
    search.order
}

// The in-neighbours of each member inside the component, as rows.
pub fn sources(rows: &[u64], members: Mask) -> [u64; 64]
    requires few { length rows.now ≤ 64 }
    requires within { (u : ℕ) → T (bit (number members) u) → u < length rows.now }
    ensures long { length result ≡ 64 }
    ensures incoming { (v u : ℕ) → bit (get_or result v 0) u ≡ inside (edge rows.now) (number members) u v }
{
    let mut found = [0u64; 64];
    for v in members.members() {
        holders(rows, members, v).cut(v).set_row(&mut found, v);
    }
    found
}
