//! The fields of a node under the names of another's, place by place.
ghost use Rattle.entries.specs.Spans.{stored_field, stored_in};
ghost use Rattle.extracting.specs.Walking.{BuiltBy};
ghost use Rattle.plan.specs.Calls.{good_alias, good_field};
ghost use Rattle.plan.specs.Fields.{every};
ghost use Rattle.plan.specs.Terms.Expr.{alias as alias_tree, reference as reference_tree};
ghost use Rattle.plan.specs.Terms.{same_field};
ghost use Rattle.recovering.specs.Renaming.{can_rename, placed};
ghost use Rattle.rewriting.specs.Extracting.{by_place};
ghost use Rattle.rewriting.specs.Generated.{expr_names, highest, next_number};
ghost use Rattle.rewriting.specs.Outlay.{tree_space};
ghost use Rattle.std.specs.Prelude.{◌≡◌, ◌<◌, ◌≤◌, ◌||◌, [], true, length};
ghost use Rattle.stepping.specs.Lists.{ListBy};
ghost use Rattle.tables.specs.Begun.{TablesBegin};
ghost use Rattle.tables.specs.Holding.{fields_at, model_of, plan_count, view_in};

use crate::columns::fields_apart;
use entries::node::{ExprId, PlanId, StoredField};
use naming::resolving::same_field;
use plan::fault::Fault;
use table::table::Table;
use tables::tables::Tables;

/// A reference to a field under the name of another: an alias of it where they are not the same.
fn renamed(tables: &mut Tables, name: StoredField, field: StoredField) -> Result<ExprId, Fault>
    requires name { stored_in (view_in tables.old).bytes name ≡ true }
    requires field { stored_in (view_in tables.old).bytes field ≡ true }
    requires good { good_field (stored_field (view_in tables.old).bytes field) ≡ true }
    requires fits { (same_field (stored_field (view_in tables.old).bytes name) (stored_field (view_in tables.old).bytes field) || good_alias (stored_field (view_in tables.old).bytes name)) ≡ true }
    requires low { highest 0 (expr_names (alias_tree (reference_tree (stored_field (view_in tables.old).bytes field)) (stored_field (view_in tables.old).bytes name))) < next_number (model_of tables.old) }
    ensures answer { BuiltBy tables.old (tree_space (placed (stored_field (view_in tables.old).bytes name) (stored_field (view_in tables.old).bytes field))) 0 (placed (stored_field (view_in tables.old).bytes name) (stored_field (view_in tables.old).bytes field)) result tables.new }
    ensures begins { TablesBegin tables.old tables.new }
{
    let is_same = same_field(tables.terms(), name, field);
    let column = tables.column(field)?;
    if is_same {
        return Ok(column);
    }
    tables.alias_as(column, name)
}

/// Makes the fields of a node under the names of another's, place by place.
pub(crate) fn push_by_place(
    tables: &mut Tables,
    old: PlanId,
    p: PlanId,
    made: &mut Table<ExprId, 64>,
) -> Result<(), Fault>
    requires old { old.0 < plan_count tables.old }
    requires present { p.0 < plan_count tables.old }
    requires as_many { length (fields_at tables.old old.0) ≡ length (fields_at tables.old p.0) }
    requires good { every good_field (fields_at tables.old p.0) ≡ true }
    requires fits { can_rename (fields_at tables.old old.0) (fields_at tables.old p.0) ≡ true }
    requires empty { made.old ≡ [] }
    ensures answer { ListBy tables.old (by_place (fields_at tables.old old.0) (fields_at tables.old p.0)) 0 result made.new tables.new }
    ensures few { length made.new ≤ 64 }
    ensures begins { TablesBegin tables.old tables.new }
{
    let names = fields_apart(tables, old);
    let fields = fields_apart(tables, p);
    for (name, field) in names.as_slice().iter().zip(fields.as_slice()) {
        let e = renamed(tables, *name, *field)?;
        made.push(e);
    }
    Ok(())
}
