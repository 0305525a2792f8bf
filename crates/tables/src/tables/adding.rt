//! How a node is stored: the only way into the plan table.
ghost use Rattle.std.specs.Prelude.{◌≡◌, true};
ghost use Rattle.tables.specs.Begun.{TablesBegin};
ghost use Rattle.tables.specs.Drafting.{ShownDraft};
ghost use Rattle.tables.specs.Holding.{model_of, view_in};
ghost use Rattle.stored.specs.Making.{bounded, well_named};
ghost use Rattle.tables.specs.Making.{NodeStored, outlay_for, present, tree_for, well_placed};
ghost use Rattle.plan.specs.Model.{fits};
ghost use Rattle.plan.specs.Plans.{plan_size_of};
ghost use Rattle.plan.specs.Questions.{limited};

use super::Tables;
use draft::storing::store;
use draft::word::DraftField;
use entries::node::PlanId;
use stored::node::{NewNode, PlanRecord, Run};
use stored::placing::place;

impl Tables {
    /// Stores a node that has passed its questions, with the size of its tree and a draft of its fields.
    // Clauses, not a type that keeps them: such a type would borrow the tables, and this call writes them.
    pub fn add(&mut self, node: NewNode<'_>, size: u32, draft: &[DraftField]) -> PlanId
        requires present { present self.old node ≡ true }
        requires bounded { bounded node ≡ true }
        requires named { well_named node ≡ true }
        requires placed { well_placed self.old node ≡ true }
        requires limited { limited (view_in self.old).functions (tree_for self.old node) ≡ true }
        requires room { fits (model_of self.old).used (outlay_for self.old node) ≡ true }
        requires size { size ≡ plan_size_of (tree_for self.old node) }
        requires draft { ShownDraft self.old node draft.now }
        ensures stored { NodeStored self.old node.entry result.0 (model_of self.new) }
        ensures begins { TablesBegin self.old self.new }
    {
        let number = PlanId(self.plans.len() as u32);
        let placed = place(&mut self.terms, node, number);
        let first = self.fields.len() as u32;
        store(&mut self.terms, &mut self.fields, placed.lent, draft);
        let count = draft.len() as u32;
        self.plans.push(PlanRecord {
            node: placed.node,
            fields: Run { first, count },
            size,
            origin: number,
        });
        number
    }
}
