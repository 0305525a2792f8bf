//! Whether two nodes have the same fields.
ghost use Rattle.rewriting.specs.Extracting.{same_fields};
ghost use Rattle.std.specs.Prelude.{◌≡◌, ◌<◌};
ghost use Rattle.tables.specs.Holding.{fields_at, plan_count};

use entries::node::PlanId;
use naming::resolving::same_field;
use tables::tables::Tables;

/// Whether two nodes have the same fields, in the same order.
pub(crate) fn same_fields(tables: &Tables, a: PlanId, b: PlanId) -> bool
    requires left { a.0 < plan_count tables.now }
    requires right { b.0 < plan_count tables.now }
    ensures { result ≡ same_fields (fields_at tables.now a.0) (fields_at tables.now b.0) }
{
    let left = tables.fields_of(a);
    let right = tables.fields_of(b);
    left.len() == right.len()
        && left
            .iter()
            .zip(right)
            .all(|(f, g)| same_field(tables.terms(), *f, *g))
}
