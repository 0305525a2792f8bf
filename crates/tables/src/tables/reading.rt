//! What is asked of nodes and of expressions.
ghost use Rattle.std.specs.Prelude.{◌≡◌, ◌+◌, ◌<◌, ◌≤◌, true, map, length};
ghost use Rattle.plan.specs.Model.{origin_at};
ghost use Rattle.tables.specs.Holding.{fields_at, model_of, plan_count, tree_in, view_in};
ghost use Rattle.tables.specs.Reading.{ReadsAs};
ghost use Rattle.plan.specs.Calls.{below};
ghost use Rattle.plan.specs.Fields.{every};
ghost use Rattle.plan.specs.Plans.{plan_size_of};
ghost use Rattle.entries.specs.Spans.{stored_field, stored_in};

use super::Tables;
use entries::node::{PlanId, StoredField};
use stored::node::PlanRecord;
use terms::terms::Terms;

// That a node or an expression is there is a clause of each call: a number says nothing of the tables, which grow.
impl Tables {
    /// The expressions, with the functions and the text.
    pub fn terms(&self) -> &Terms
        ensures { result.now ≡ self.now.terms }
    {
        &self.terms
    }

    /// How many nodes there are.
    pub fn len(&self) -> usize
        ensures value { result ≡ plan_count self.now }
        ensures bound { result ≤ 128 }
    {
        self.plans.len()
    }

    /// Whether a node stands in the book.
    pub fn has(&self, p: PlanId) -> bool
        ensures { result ≡ below (plan_count self.now) p.0 }
    {
        (p.0 as usize) < self.len()
    }

    /// What the table holds of a node.
    pub fn record_of(&self, p: PlanId) -> PlanRecord
        requires { p.0 < plan_count self.now }
        ensures { ReadsAs self.now p.0 result }
    {
        self.plans.get(p.0 as usize)
    }

    /// The fields of a node.
    pub fn fields_of(&self, p: PlanId) -> &[StoredField]
        requires { p.0 < plan_count self.now }
        ensures value { map (stored_field (view_in self.now).bytes) result.now ≡ fields_at self.now p.0 }
        ensures stored { every (stored_in (view_in self.now).bytes) result.now ≡ true }
        ensures few { length result.now ≤ 64 }
    {
        let run = self.record_of(p).fields;
        self.fields.part(run.first as usize, run.count as usize)
    }

    /// How many nodes a node's tree has.
    pub fn size_of(&self, p: PlanId) -> u32
        requires { p.0 < plan_count self.now }
        ensures value { result ≡ plan_size_of (tree_in self.now p.0) }
        ensures bound { result ≤ 64 }
    {
        self.record_of(p).size
    }

    /// The node that a node was made from; at first itself.
    pub fn origin_of(&self, p: PlanId) -> PlanId
        requires { p.0 < plan_count self.now }
        ensures { result.0 ≡ origin_at (model_of self.now) p.0 }
    {
        self.record_of(p).origin
    }

    /// How many more fields there is room for.
    pub fn field_room(&self) -> usize
        ensures { result + length self.now.fields ≡ 2048 }
    {
        self.fields.room()
    }

    /// How many expressions there are.
    pub fn expr_count(&self) -> usize
        ensures { result ≡ length (model_of self.now).exprs }
    {
        self.terms.len()
    }
}
