//! The five tables of a book; the methods stand below, so that they can cite `specs/Holding.antt`.
ghost use Rattle.stored.specs.Stored.{fielded, plan_trees, sound_plans, well_formed};
ghost use Rattle.plan.specs.Fields.{every};
ghost use Rattle.plan.specs.Plans.{plan_size_of};
ghost use Rattle.entries.specs.Spans.{stored_in};
ghost use Rattle.terms.specs.Views.{view_of};
ghost use Rattle.std.specs.Prelude.{◌≡◌, ◌≤◌, true, map, length};

use entries::node::StoredField;
use stored::node::PlanRecord;
use table::table::Table;
use terms::terms::Terms;

mod adding;
mod expressions;
mod inputs;
mod marking;
mod opening;
mod origins;
mod reading;

#[derive(Drop)]
pub struct Tables {
    terms: Terms,
    fields: Table<StoredField, 2048>,
    plans: Table<PlanRecord, 128>,
    ghost few_fields: { length fields ≤ 2048 },
    ghost few_plans: { length plans ≤ 128 },
    ghost stored: { every (stored_in (view_of terms).bytes) fields ≡ true },
    ghost sound: { sound_plans (view_of terms) fields plans ≡ true },
    ghost fielded: { fielded (view_of terms) fields plans ≡ true },
    ghost sizes: { map (λ r. r.size) plans ≡ map plan_size_of (plan_trees (view_of terms) fields plans) },
    ghost formed: { every (well_formed (view_of terms).functions) (plan_trees (view_of terms) fields plans) ≡ true },
}
