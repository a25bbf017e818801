// Rows that passed the checks, alone and with costs.
ghost use Rattle.std.specs.Prelude.{◌≡◌, length, IfOk};
ghost use Rattle.graphs.specs.Refusals.{first, checks, refusal_of};
ghost use Rattle.graphs.specs.Work.{Sound};

use super::{Refusal, check};

// A graph: its rows are at most 64, and each has bits below their number alone.
#[derive(Clone, Copy)]
pub struct Graph<'a> {
    // One for each flip-flop, with the bits of those to which its edges lead.
    pub rows: &'a [u64],
    ghost sound: { Sound rows.now },
}

impl<'a> Graph<'a> {
    // The graph of these rows, or refusal 1 or 3.
    pub fn new(rows: &'a [u64]) -> Result<Graph<'a>, Refusal>
        ensures refused { refusal_of result ≡ first (checks rows.now (length rows.now)) }
        ensures made { IfOk result (λ graph. graph.rows.now ≡ rows.now) }
    {
        check(rows, rows.len())?;
        Ok(Graph { rows })
    }

    // The number of flip-flops.
    pub fn len(self) -> usize
        ensures { result ≡ length self.entry.rows.now }
    {
        self.rows.len()
    }
}

// A block: a graph, and a cost for each flip-flop.
#[derive(Clone, Copy)]
pub struct Block<'a> {
    // Its flip-flops and their edges.
    pub graph: Graph<'a>,
    // One for each flip-flop.
    pub costs: &'a [u32],
    ghost even: { length costs.now ≡ length graph.rows.now },
}

impl<'a> Block<'a> {
    // The block of these rows and costs, or refusal 1, 2 or 3.
    pub fn new(rows: &'a [u64], costs: &'a [u32]) -> Result<Block<'a>, Refusal>
        ensures refused { refusal_of result ≡ first (checks rows.now (length costs.now)) }
        ensures made { IfOk result (λ block. (block.graph.rows.now ≡ rows.now) × (block.costs.now ≡ costs.now)) }
    {
        check(rows, costs.len())?;
        let graph = Graph { rows };
        Ok(Block { graph, costs })
    }
}
