//! A node made anew over other inputs, and recovered.
ghost use Rattle.plan.specs.Plans.{fields_of};
ghost use Rattle.recovering.specs.Renaming.{can_rename};
ghost use Rattle.rewriting.specs.Extracting.{rebuilt};
ghost use Rattle.std.specs.Prelude.{◌≡◌, ◌+◌, ◌<◌, ◌≤◌, true, length, IfOk};
ghost use Rattle.stepping.specs.Steps.{AllGood, Buildable, Steps};
ghost use Rattle.stored.specs.Making.{bounded, well_named};
ghost use Rattle.tables.specs.Begun.{TablesBegin};
ghost use Rattle.tables.specs.Holding.{fields_at, model_of, plan_count, view_in};
ghost use Rattle.tables.specs.Making.{present, tree_for, well_placed};

use crate::recovery::build_recovery_projection;
use entries::node::PlanId;
use plan::fault::{Fault, Stage};
use stepping::making::make_at;
use stored::node::NewNode;
use tables::tables::Tables;

/// Makes a node, and a Projection over it if it has not the fields of an old one.
pub fn rebuilt(tables: &mut Tables, old: PlanId, node: NewNode<'_>) -> Result<PlanId, Fault>
    requires present { present tables.old node ≡ true }
    requires bounded { bounded node ≡ true }
    requires named { well_named node ≡ true }
    requires placed { well_placed tables.old node ≡ true }
    requires kind { Buildable tables.old node }
    requires old { old.0 < plan_count tables.old }
    requires good { AllGood (model_of tables.old) }
    requires fits { length (fields_at tables.old old.0) ≡ length (fields_of (view_in tables.old).functions (tree_for tables.old node)) → can_rename (fields_at tables.old old.0) (fields_of (view_in tables.old).functions (tree_for tables.old node)) ≡ true }
    ensures steps { Steps (model_of tables.old) 0 (rebuilt (view_in tables.old).functions 0 (fields_at tables.old old.0) (tree_for tables.old node.entry)) result (model_of tables.new) }
    ensures last { IfOk result (λ r. (plan_count tables.old ≤ r.0) × (r.0 + 1 ≡ plan_count tables.new)) }
    ensures begins { TablesBegin tables.old tables.new }
{
    let p = make_at(tables, node, Stage::Rebuilt, 0)?;
    build_recovery_projection(tables, old, p)
}
