//! The origins of nodes.
ghost use Rattle.std.specs.Prelude.{◌≡◌, ◌<◌, ◌≤◌, ◌==◌};
ghost use Rattle.plan.specs.Model.{origin_at};
ghost use Rattle.tables.specs.Holding.{model_of, plan_count};
ghost use Rattle.tables.specs.Origins.{OriginGiven};

use super::Tables;
use entries::node::PlanId;
use stored::node::PlanRecord;

/// Sets the origin of a record that is lent.
// A function of its own, since a rule of the project asks for one that is lent a record and sets a field of it.
fn set_origin(lent: &mut PlanRecord, origin: PlanId)
    ensures { lent.new ≡ record { node = lent.old.node; fields = lent.old.fields; size = lent.old.size; origin = origin } }
{
    lent.origin = origin;
}

impl Tables {
    /// Whether two nodes have one origin.
    pub fn same_origin(&self, a: PlanId, b: PlanId) -> bool
        requires first { a.0 < plan_count self.now }
        requires second { b.0 < plan_count self.now }
        ensures { result ≡ (origin_at (model_of self.now) a.0 == origin_at (model_of self.now) b.0) }
    {
        self.origin_of(a) == self.origin_of(b)
    }

    /// Gives a node the origin of an older one, or its own.
    pub fn give_origin(&mut self, p: PlanId, origin: PlanId)
        requires node { p.0 < plan_count self.old }
        requires older { origin.0 ≤ p.0 }
        ensures { OriginGiven (model_of self.old) p.0 origin.0 (model_of self.new) }
    {
        let i = p.0 as usize;
        let mut held = self.plans.get(i);
        set_origin(&mut held, origin);
        self.plans.set(i, held);
    }
}
