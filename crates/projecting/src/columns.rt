//! References to fields, put behind the expressions of a list.
ghost use Rattle.entries.specs.Spans.{stored_field, stored_in};
ghost use Rattle.plan.specs.Fields.{every};
ghost use Rattle.projecting.specs.Onto.{Held, OntoBy, fields_in};
ghost use Rattle.rows.specs.Standing.{refs};
ghost use Rattle.std.specs.Prelude.{◌≡◌, ◌+◌, ◌<◌, ◌≤◌, true, map, length};
ghost use Rattle.tables.specs.Begun.{TablesBegin};
ghost use Rattle.tables.specs.Holding.{fields_at, plan_count, view_in};

use entries::node::{ExprId, PlanId, Span, StoredField};
use plan::fault::Fault;
use table::table::Table;
use tables::tables::Tables;

/// The fields of a node, apart from the tables.
pub fn copied_fields(tables: &Tables, p: PlanId) -> Table<StoredField, 64>
    requires { p.0 < plan_count tables.now }
    ensures value { map (stored_field (view_in tables.now).bytes) result ≡ fields_at tables.now p.0 }
    ensures stored { every (stored_in (view_in tables.now).bytes) result ≡ true }
{
    let mut fields = Table::new(StoredField {
        qualifier: None,
        name: Span { start: 0, len: 0 },
    });
    fields.extend(tables.fields_of(p));
    fields
}

/// Puts a reference to each of some fields behind the expressions of a list.
pub fn push_columns(
    tables: &mut Tables,
    fields: &[StoredField],
    list: &mut Table<ExprId, 64>,
) -> Result<(), Fault>
    requires held { Held tables.old fields.now }
    requires room { length list.old + length fields.now ≤ 64 }
    ensures answer { OntoBy tables.old (refs (fields_in tables.old fields.now)) 0 list.old result list.new tables.new }
    ensures begins { TablesBegin tables.old tables.new }
{
    for field in fields {
        let column = tables.column(*field)?;
        list.push(column);
    }
    Ok(())
}
