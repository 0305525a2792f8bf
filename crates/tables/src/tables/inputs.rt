//! The inputs of a node, by position.
ghost use Rattle.std.specs.Prelude.{◌≡◌, ◌<◌, length, slice_index};
ghost use Rattle.plan.specs.Model.{inputs_at};
ghost use Rattle.tables.specs.Holding.{model_of, plan_count};

use super::Tables;
use entries::listed::Listed;
use entries::node::PlanId;
use stored::node::PlanNode;

impl Tables {
    /// How many inputs a node has.
    pub fn input_count(&self, p: PlanId) -> u32
        requires { p.0 < plan_count self.now }
        ensures { result ≡ length (inputs_at (model_of self.now) p.0) }
    {
        match self.record_of(p).node {
            PlanNode::Table { .. } => 0,
            PlanNode::Join { .. } => 2,
            PlanNode::Union { inputs } => inputs.count,
            _ => 1,
        }
    }

    /// The input at a position; a Table has none.
    pub fn input_at(&self, p: PlanId, position: u32) -> PlanId
        requires node { p.0 < plan_count self.now }
        requires position { position < length (inputs_at (model_of self.now) p.0) }
        ensures value { result.0 ≡ slice_index (inputs_at (model_of self.now) p.0) position }
        ensures lower { result.0 < p.0 }
    {
        match self.record_of(p).node {
            // Excluded by the contract. An Option would need a test of the position in every other arm.
            PlanNode::Table { .. } => p,
            PlanNode::Projection { input, .. }
            | PlanNode::Filter { input, .. }
            | PlanNode::Sort { input, .. }
            | PlanNode::Limit { input, .. }
            | PlanNode::Aggregate { input, .. }
            | PlanNode::SubqueryAlias { input, .. } => input,
            PlanNode::Join { left, right, .. } => { if position == 0 { left } else { right } }
            PlanNode::Union { inputs } => PlanId::read(self.terms.entry(inputs, position)),
        }
    }
}
