//! The needed columns of an input that are merged into the list of a Projection.
ghost use Rattle.extracting.specs.Extractors.{Inside, need_in};
ghost use Rattle.merging.specs.Joining.{ListedBy, WithinBy};
ghost use Rattle.merging.specs.Merging.{AllKnown, columns_at, columns_in, needed_at};
ghost use Rattle.merging.specs.Replacing.{MapIn, map_of};
ghost use Rattle.plan.specs.Calls.{all_below};
ghost use Rattle.plan.specs.Model.{exprs_in};
ghost use Rattle.std.specs.Prelude.{◌≡◌, ◌<◌, ◌≤◌, true, length};
ghost use Rattle.tables.specs.Holding.{fields_at, plan_count, view_in};
ghost use Rattle.terms.specs.Views.{numbers_of};

use crate::joining::add_column;
use crate::pairs::is_same;
use crate::replacing::ReplaceMap;
use entries::node::{ExprId, PlanId};
use extracting::extractor::{Extractor, Needed};
use plan::fault::Fault;
use routing::owning::Side;
use table::table::Table;
use tables::tables::Tables;

/// Merges a needed column into a list, if it is of this input.
fn merge_column(
    tables: &Tables,
    replacing: ReplaceMap<'_>,
    under: PlanId,
    column: Needed,
    side: Side,
    list: &mut Table<ExprId, 64>,
) -> Result<(), Fault>
    requires inside { MapIn (view_in tables.now) replacing }
    requires under { under.0 < plan_count tables.now }
    requires column { need_in (view_in tables.now) column ≡ true }
    requires known { AllKnown (map_of (view_in tables.now) replacing).0 (columns_at (view_in tables.now) side column) }
    requires list { all_below (length (view_in tables.now).trees) (numbers_of list.old) ≡ true }
    requires few { length list.old ≤ 64 }
    ensures { ListedBy (view_in tables.now) (columns_in (view_in tables.now).functions (fields_at tables.now under.0) (map_of (view_in tables.now) replacing.entry) (columns_at (view_in tables.now) side column) (exprs_in (view_in tables.now).trees (numbers_of list.old))) result list.new }
{
    if !is_same(column.side, side) {
        return Ok(());
    }
    let e = replacing.behind_field(tables.terms(), column.field);
    add_column(tables, under, e, list)
}

/// Merges the needed columns of an input into a list, in the order in which they were found.
pub(crate) fn add_columns(
    tables: &Tables,
    replacing: ReplaceMap<'_>,
    under: PlanId,
    extractor: &Extractor,
    side: Side,
    list: &mut Table<ExprId, 64>,
) -> Result<(), Fault>
    requires inside { MapIn (view_in tables.now) replacing }
    requires under { under.0 < plan_count tables.now }
    requires extractor { Inside (view_in tables.now) extractor.now }
    requires known { AllKnown (map_of (view_in tables.now) replacing).0 (needed_at (view_in tables.now) extractor.now side) }
    requires list { all_below (length (view_in tables.now).trees) (numbers_of list.old) ≡ true }
    requires few { length list.old ≤ 64 }
    ensures { WithinBy (view_in tables.now) (columns_in (view_in tables.now).functions (fields_at tables.now under.0) (map_of (view_in tables.now) replacing.entry) (needed_at (view_in tables.now) extractor.now side) (exprs_in (view_in tables.now).trees (numbers_of list.old))) result list.new }
{
    for column in extractor.needed() {
        merge_column(tables, replacing, under, *column, side, list)?;
    }
    Ok(())
}
