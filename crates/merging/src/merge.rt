//! Pairs and needed columns merged into a Projection.
ghost use Rattle.extracting.specs.Extractors.{Inside};
ghost use Rattle.merging.specs.Merging.{AllKnown, AllMerged, IsProjection, merged_outcome, merged_tree, needed_at};
ghost use Rattle.plan.specs.Calls.{all_below};
ghost use Rattle.plan.specs.Fields.{any, every};
ghost use Rattle.plan.specs.Functions.{is_total};
ghost use Rattle.plan.specs.Model.{exprs_in};
ghost use Rattle.plan.specs.Rendering.{field_of};
ghost use Rattle.rewriting.specs.Limits.{OnlyEight};
ghost use Rattle.rewriting.specs.Routing.{unalias};
ghost use Rattle.std.specs.Prelude.{◌≡◌, ◌+◌, ◌<◌, ◌≤◌, true, false, length, map};
ghost use Rattle.stepping.specs.Lists.{NoTotals, at_side};
ghost use Rattle.stepping.specs.Steps.{Steps};
ghost use Rattle.entries.specs.Spans.{stored_field, stored_in};
ghost use Rattle.tables.specs.Begun.{TablesBegin};
ghost use Rattle.tables.specs.Holding.{fields_at, model_of, plan_count, view_in};
ghost use Rattle.stored.specs.Stored.{run_exprs};
ghost use Rattle.terms.specs.Build.{numbers_in};
ghost use Rattle.terms.specs.Views.{AllPresent, numbers_of, view_of};

use crate::columns::add_columns;
use crate::pairs::{add_pairs, unaliased};
use crate::replacing::ReplaceMap;
use entries::listed::Listed;
use entries::node::{ExprId, PlanId, Run, Span, StoredField};
use extracting::extractor::Extractor;
use plan::fault::{Fault, Stage};
use routing::owning::Side;
use stepping::making::make_at;
use stored::node::NewNode;
use table::table::Table;
use tables::tables::Tables;
use terms::terms::Terms;

/// The fields of a node, apart from the tables.
fn copied_fields(tables: &Tables, p: PlanId) -> Table<StoredField, 64>
    requires { p.0 < plan_count tables.now }
    ensures value { map (stored_field (view_in tables.now).bytes) result ≡ fields_at tables.now p.0 }
    ensures stored { every (stored_in (view_in tables.now).bytes) result ≡ true }
{
    let mut fields = Table::new(StoredField {
        qualifier: None,
        name: Span { start: 0, len: 0 },
    });
    fields.extend(tables.fields_of(p));
    fields
}

/// The expressions of a list, apart from the tables.
fn listed(terms: &Terms, run: Run) -> Table<ExprId, 64>
    requires inside { run.first + run.count ≤ length (view_of terms.now).entries }
    requires few { run.count ≤ 64 }
    ensures numbers { numbers_of result ≡ numbers_in (view_of terms.now).entries run.first run.count }
    ensures few { length result ≤ 64 }
{
    let mut list = Table::new(ExprId(0));
    list.push_each(terms.entries(run), ExprId::read);
    list
}

/// Some expressions, each less one alias.
fn all_unaliased(terms: &Terms, list: &[ExprId]) -> Table<ExprId, 64>
    requires list { AllPresent terms.now list.now }
    requires few { length list.now ≤ 64 }
    ensures trees { exprs_in (view_of terms.now).trees (numbers_of result) ≡ map unalias (exprs_in (view_of terms.now).trees (numbers_of list.now)) }
    ensures present { AllPresent terms.now result }
{
    let mut bare = Table::new(ExprId(0));
    for e in list {
        bare.push(unaliased(terms, *e));
    }
    bare
}

/// Merges what was taken out for an input, and what is needed of it, into the list of the Projection that is the input.
fn add_all(
    tables: &mut Tables,
    extractor: &Extractor,
    side: Side,
    input: PlanId,
    under: PlanId,
    list: &mut Table<ExprId, 64>,
) -> Result<(), Fault>
    requires input { input.0 < plan_count tables.old }
    requires under { under.0 < plan_count tables.old }
    requires extractor { Inside (view_in tables.old) extractor.now }
    requires list { all_below (length (view_in tables.old).trees) (numbers_of list.old) ≡ true }
    requires few { length list.old ≤ 64 }
    requires fields { fields_at tables.old input.0 ≡ map (field_of (view_in tables.old).functions) (exprs_in (view_in tables.old).trees (numbers_of list.old)) }
    requires totals { any (is_total (view_in tables.old).functions) (exprs_in (view_in tables.old).trees (numbers_of list.old)) ≡ false }
    requires known { AllKnown (fields_at tables.old input.0) (needed_at (view_in tables.old) extractor.now side) }
    ensures answer { AllMerged tables.old extractor.now side under.0 (exprs_in (view_in tables.old).trees (numbers_of list.old)) result list.new tables.new }
    ensures begins { TablesBegin tables.old tables.new }
{
    let fields = copied_fields(tables, input);
    let behind = all_unaliased(tables.terms(), list.as_slice());
    let replacing = ReplaceMap {
        fields: fields.as_slice(),
        behind: behind.as_slice(),
    };
    add_pairs(tables, replacing, extractor, side, list)?;
    add_columns(tables, replacing, under, extractor, side, list)
}

/// The Projection `input`, of the list `list` over the node `under`, made anew with what was taken out for it and what is
/// needed of it: what is found over its fields is put over its input's.
pub fn merge(
    tables: &mut Tables,
    extractor: &Extractor,
    side: Side,
    input: PlanId,
    under: PlanId,
    list: Run,
) -> Result<PlanId, Fault>
    requires present { input.0 < plan_count tables.old }
    requires reads { IsProjection tables.old input.0 under list }
    requires inside { Inside (view_in tables.old) extractor.now }
    requires totals { any (is_total (view_in tables.old).functions) (run_exprs (view_in tables.old) list) ≡ false }
    requires plain { NoTotals (view_in tables.old).functions (at_side (view_in tables.old) extractor.now side) }
    requires known { AllKnown (fields_at tables.old input.0) (needed_at (view_in tables.old) extractor.now side) }
    requires only { OnlyEight (view_in tables.old).functions (merged_tree tables.old extractor.now side under list) }
    ensures steps { Steps (model_of tables.old) extractor.now.next (merged_outcome tables.old extractor.now side under list) result (model_of tables.new) }
    ensures begins { TablesBegin tables.old tables.new }
{
    let mut merged = listed(tables.terms(), list);
    add_all(tables, extractor, side, input, under, &mut merged)?;
    let node = NewNode::Projection {
        input: under,
        list: merged.as_slice(),
    };
    make_at(tables, node, Stage::Merge, 0)
}
