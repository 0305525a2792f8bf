//! References to the fields of a node.
ghost use Rattle.entries.specs.Spans.{stored_field, stored_in};
ghost use Rattle.plan.specs.Calls.{good_field};
ghost use Rattle.plan.specs.Fields.{every};
ghost use Rattle.rows.specs.Standing.{refs};
ghost use Rattle.std.specs.Prelude.{◌≡◌, ◌<◌, ◌≤◌, [], true, length, map};
ghost use Rattle.stepping.specs.Lists.{ListBy};
ghost use Rattle.tables.specs.Begun.{TablesBegin};
ghost use Rattle.tables.specs.Holding.{fields_at, plan_count, view_in};

use entries::node::{ExprId, PlanId, Span, StoredField};
use plan::fault::Fault;
use table::table::Table;
use tables::tables::Tables;

/// The fields of a node, apart from the tables.
pub(crate) fn fields_apart(tables: &Tables, p: PlanId) -> Table<StoredField, 64>
    requires { p.0 < plan_count tables.now }
    ensures fields { map (stored_field (view_in tables.now).bytes) result ≡ fields_at tables.now p.0 }
    ensures stored { every (stored_in (view_in tables.now).bytes) result ≡ true }
    ensures few { length result ≤ 64 }
{
    let filler = StoredField {
        qualifier: None,
        name: Span { start: 0, len: 0 },
    };
    let mut fields = Table::new(filler);
    fields.extend(tables.fields_of(p));
    fields
}

/// Makes a reference to each field of a node.
pub fn push_columns(
    tables: &mut Tables,
    p: PlanId,
    made: &mut Table<ExprId, 64>,
) -> Result<(), Fault>
    requires present { p.0 < plan_count tables.old }
    requires good { every good_field (fields_at tables.old p.0) ≡ true }
    requires empty { made.old ≡ [] }
    ensures answer { ListBy tables.old (refs (fields_at tables.old p.0)) 0 result made.new tables.new }
    ensures few { length made.new ≤ 64 }
    ensures begins { TablesBegin tables.old tables.new }
{
    let fields = fields_apart(tables, p);
    for field in fields.as_slice() {
        let column = tables.column(*field)?;
        made.push(column);
    }
    Ok(())
}
