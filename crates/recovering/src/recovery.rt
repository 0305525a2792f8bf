//! A node recovered: it has the fields of an old node.
ghost use Rattle.plan.specs.Calls.{good_field};
ghost use Rattle.plan.specs.Fields.{every};
ghost use Rattle.recovering.specs.Renaming.{can_rename, recovery_list};
ghost use Rattle.rewriting.specs.Extracting.{build_recovery_projection};
ghost use Rattle.std.specs.Prelude.{◌≡◌, ◌+◌, ◌<◌, ◌≤◌, [], true, length, IfOk};
ghost use Rattle.stepping.specs.Lists.{ListBy};
ghost use Rattle.stepping.specs.Steps.{Steps};
ghost use Rattle.tables.specs.Begun.{TablesBegin};
ghost use Rattle.tables.specs.Holding.{fields_at, model_of, plan_count, tree_in, view_in};

use crate::columns::push_columns;
use crate::comparing::same_fields;
use crate::renaming::push_by_place;
use entries::node::{ExprId, PlanId};
use plan::fault::{Fault, Stage};
use stepping::making::make_at;
use stored::node::NewNode;
use table::table::Table;
use tables::tables::Tables;

/// Makes the list of a recovery: by place if there are as many fields, else by name.
fn push_recovery(
    tables: &mut Tables,
    old: PlanId,
    p: PlanId,
    made: &mut Table<ExprId, 64>,
) -> Result<(), Fault>
    requires old { old.0 < plan_count tables.old }
    requires present { p.0 < plan_count tables.old }
    requires good { every good_field (fields_at tables.old old.0) ≡ true }
    requires shown { every good_field (fields_at tables.old p.0) ≡ true }
    requires fits { length (fields_at tables.old old.0) ≡ length (fields_at tables.old p.0) → can_rename (fields_at tables.old old.0) (fields_at tables.old p.0) ≡ true }
    requires empty { made.old ≡ [] }
    ensures answer { ListBy tables.old (recovery_list (fields_at tables.old old.0) (fields_at tables.old p.0)) 0 result made.new tables.new }
    ensures few { length made.new ≤ 64 }
    ensures begins { TablesBegin tables.old tables.new }
{
    if tables.fields_of(old).len() == tables.fields_of(p).len() {
        push_by_place(tables, old, p, made)
    } else {
        push_columns(tables, old, made)
    }
}

/// The last node with the fields of an old one: itself where it has them, else a Projection over it.
pub fn build_recovery_projection(
    tables: &mut Tables,
    old: PlanId,
    p: PlanId,
) -> Result<PlanId, Fault>
    requires old { old.0 < plan_count tables.old }
    requires present { p.0 < plan_count tables.old }
    requires good { every good_field (fields_at tables.old old.0) ≡ true }
    requires shown { every good_field (fields_at tables.old p.0) ≡ true }
    requires fits { length (fields_at tables.old old.0) ≡ length (fields_at tables.old p.0) → can_rename (fields_at tables.old old.0) (fields_at tables.old p.0) ≡ true }
    requires last { p.0 + 1 ≡ plan_count tables.old }
    ensures steps { Steps (model_of tables.old) 0 (build_recovery_projection (view_in tables.old).functions 0 (fields_at tables.old old.0) (tree_in tables.old p.0)) result (model_of tables.new) }
    ensures last { IfOk result (λ r. (p.0 ≤ r.0) × (r.0 + 1 ≡ plan_count tables.new)) }
    ensures begins { TablesBegin tables.old tables.new }
{
    if same_fields(tables, old, p) {
        return Ok(p);
    }
    let mut list = Table::new(ExprId(0));
    push_recovery(tables, old, p, &mut list)?;
    let node = NewNode::Projection {
        input: p,
        list: list.as_slice(),
    };
    make_at(tables, node, Stage::Recovery, 0)
}
