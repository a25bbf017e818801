// The block under reduction: one record, lent to each step.
ghost use Rattle.std.specs.Prelude.{◌≡◌, ◌<◌, length};
ghost use Rattle.graphs.specs.Graph.{cost_of};
ghost use Rattle.reduction.specs.Work.{Beside, Usable};

use crate::rules::{Rule, folds};
use crate::{Done, Step};
use masks::{Mask, Vertex};

// Live flip-flops, the forced set, the edges among live ones as the rows of either side, and the costs, which no rule changes. The rows stay where the
// caller has them, so that no record copies them.
#[derive(Drop)]
pub struct State<'a> {
    pub live: Mask,
    pub forced: Mask,
    pub outs: &'a mut [u64],
    pub ins: &'a mut [u64],
    pub costs: &'a [u32],
    ghost beside: { Beside outs.now ins.now },
    ghost even: { length costs.now ≡ length outs.now },
}

impl<'a> State<'a> {
    ghost use Rattle.reduction.specs.Blocks.{block_of};
    ghost use Rattle.reduction.specs.Work.{applies, FirstFor, Chosen, Performed, Advanced};

    // One step, if a rule applies.
    pub fn step(&mut self) -> Option<Step>
        ensures same_outs { self.new.outs.ghost_name ≡ self.old.outs.ghost_name }
        ensures same_ins { self.new.ins.ghost_name ≡ self.old.ins.ghost_name }
        ensures costs { self.new.costs.now ≡ self.old.costs.now }
        ensures advanced { Advanced (cost_of self.old.costs.now) (block_of self.old) result (block_of self.new) }
    {
        let (rule, v) = self.choose()?;
        let done = self.perform(rule, v);
        Some(Step { vertex: v, done })
    }

    // The lowest-numbered rule that applies to any live flip-flop, and the lowest such flip-flop.
    fn choose(&self) -> Option<(Rule, Vertex)>
        ensures { Chosen (cost_of self.now.costs.now) (block_of self.now) result }
    {
        for rule in Rule::ALL {
            if let Some(v) = self.first_for(rule) {
                return Some((rule, v));
            }
        }
        None
    }

    // The lowest flip-flop that a rule applies to. By the rows, as its definition goes: whether one is live is the first thing that a rule asks of it.
    fn first_for(&self, rule: Rule) -> Option<Vertex>
        ensures { FirstFor rule (cost_of self.now.costs.now) (block_of self.now) result }
    {
        for k in 0..self.outs.len() {
            let v = Vertex(k);
            if self.suits(rule, v) {
                return Some(v);
            }
        }
        None
    }

    // Whether a rule applies to v, which is live then. Only the rows that the rule goes by are read.
    fn suits(&self, rule: Rule, v: Vertex) -> bool
        requires within { v.0 < length self.now.outs.now }
        ensures { result ≡ applies rule (cost_of self.now.costs.now) (block_of self.now) v.0 }
    {
        if !self.live.has(v) {
            return false;
        }
        match rule {
            Rule::Looped => Mask::row(self.outs, v).has(v),
            Rule::Loose => Mask::row(self.ins, v).is_empty() || Mask::row(self.outs, v).is_empty(),
            Rule::OneIn => folds(Mask::row(self.ins, v), v, self.costs),
            Rule::OneOut => folds(Mask::row(self.outs, v), v, self.costs),
        }
    }

    // Uses a rule on v: what the rule returned is stored.
    fn perform(&mut self, rule: Rule, v: Vertex) -> Done
        requires within { v.0 < length self.old.outs.now }
        requires usable { Usable rule self.old.outs.now v.0 }
        ensures same_outs { self.new.outs.ghost_name ≡ self.old.outs.ghost_name }
        ensures same_ins { self.new.ins.ghost_name ≡ self.old.ins.ghost_name }
        ensures costs { self.new.costs.now ≡ self.old.costs.now }
        ensures performed { Performed rule (block_of self.old) v.0 result (block_of self.new) }
    {
        // Both sides are lent at once, since in between only one of them is changed, and they do not go together.
        let outs = &mut *self.outs;
        let ins = &mut *self.ins;
        let change = rule.apply(self.live, self.forced, outs, ins, v);
        self.live = change.live;
        self.forced = change.forced;
        change.done
    }
}
