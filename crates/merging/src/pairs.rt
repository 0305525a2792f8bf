//! The pairs of an input that are merged into the list of a Projection.
ghost use Rattle.extracting.specs.Extractors.{Inside, entry_in};
ghost use Rattle.extracting.specs.Walking.{BuiltBy};
ghost use Rattle.merging.specs.Merging.{GatheredBy, PairsMerged, pair_in, pair_of, pairs_at};
ghost use Rattle.merging.specs.Replacing.{MapIn, map_of};
ghost use Rattle.plan.specs.Calls.{all_below};
ghost use Rattle.plan.specs.Fields.{any};
ghost use Rattle.plan.specs.Functions.{is_total};
ghost use Rattle.plan.specs.Model.{expr_in, exprs_in, space};
ghost use Rattle.plan.specs.Rendering.{unqualified_field};
ghost use Rattle.plan.specs.Terms.Expr.{alias as alias_tree};
ghost use Rattle.plan.specs.Terms.{size_of};
ghost use Rattle.rewriting.specs.Extracting.{add_pair};
ghost use Rattle.rewriting.specs.Generated.{countable, generated};
ghost use Rattle.rewriting.specs.Outlay.{tree_space};
ghost use Rattle.rewriting.specs.Routing.{same_side, unalias};
ghost use Rattle.routing.specs.Sides.{side_of};
ghost use Rattle.std.specs.Prelude.{◌≡◌, ◌+◌, ◌<◌, ◌≤◌, true, false, length};
ghost use Rattle.stepping.specs.Lists.{at_side};
ghost use Rattle.tables.specs.Begun.{TablesBegin};
ghost use Rattle.tables.specs.Holding.{view_in};
ghost use Rattle.terms.specs.Views.{count, numbers_of, tree_of};

use crate::joining::{add_pair, too_large};
use crate::replacing::{ReplaceMap, replace_cols_by_name, replaced_size};
use entries::node::{ExprId, ExprNode};
use extracting::extractor::{Extracted, Extractor};
use numbering::alias::generated;
use plan::fault::Fault;
use routing::owning::Side;
use table::table::Table;
use tables::tables::Tables;
use terms::terms::Terms;

/// Whether two inputs are the same one.
#[tactic(auto, unfolding(rewriting::specs::Routing::same_side))]
pub(crate) fn is_same(a: Side, b: Side) -> bool
    ensures { result ≡ same_side (side_of a) (side_of b) }
{
    matches!(
        (a, b),
        (Side::First, Side::First) | (Side::Second, Side::Second)
    )
}

/// An expression, less one alias.
#[tactic(auto, unfolding(rewriting::specs::Routing::unalias))]
pub(crate) fn unaliased(terms: &Terms, e: ExprId) -> ExprId
    requires { e.0 < count terms.now }
    ensures tree { tree_of terms.now result.0 ≡ unalias (tree_of terms.now e.0) }
    ensures present { result.0 < count terms.now }
{
    match terms.node(e) {
        ExprNode::Constant(_) => e,
        ExprNode::Reference(_) => e,
        ExprNode::Alias { inner, .. } => inner,
        ExprNode::Call { .. } => e,
    }
}

/// An expression under the alias of a number.
fn aliased(tables: &mut Tables, e: ExprId, alias: u32) -> Result<ExprId, Fault>
    requires present { e.0 < length (view_in tables.old).trees }
    requires small { size_of (expr_in (view_in tables.old).trees e.0) ≤ 255 }
    requires number { countable alias ≡ true }
    ensures answer { BuiltBy tables.old (space 1 0 0 0 (length (generated alias))) (alias + 1) (alias_tree (expr_in (view_in tables.old).trees e.0) (unqualified_field (generated alias))) result tables.new }
    ensures begins { TablesBegin tables.old tables.new }
{
    tables.alias(e, &generated(alias), None)
}

/// Merges a pair into a list: what was taken out, as an expression over the Projection's input, under its alias.
fn merge_pair(
    tables: &mut Tables,
    replacing: ReplaceMap<'_>,
    entry: Extracted,
    list: &mut Table<ExprId, 64>,
) -> Result<(), Fault>
    requires inside { MapIn (view_in tables.old) replacing }
    requires totals { any (is_total (view_in tables.old).functions) (map_of (view_in tables.old) replacing).1 ≡ false }
    requires entry { entry_in (view_in tables.old) entry ≡ true }
    requires list { all_below (length (view_in tables.old).trees) (numbers_of list.old) ≡ true }
    requires few { length list.old ≤ 64 }
    ensures answer { GatheredBy tables.old (tree_space (pair_in (map_of (view_in tables.old) replacing.entry) (pair_of (view_in tables.old) entry))) (entry.alias + 1) (add_pair (pair_in (map_of (view_in tables.old) replacing.entry) (pair_of (view_in tables.old) entry)) (exprs_in (view_in tables.old).trees (numbers_of list.old))) result list.new tables.new }
    ensures begins { TablesBegin tables.old tables.new }
{
    let inner = unaliased(tables.terms(), entry.inner);
    // The alias would have more than 256 nodes, as no expression of the book has: it joins, and the list is too large.
    if replaced_size(tables.terms(), replacing, inner) > 255 {
        return Err(too_large());
    }
    let made = replace_cols_by_name(tables, replacing, inner)?;
    let alias = aliased(tables, made, entry.alias)?;
    add_pair(tables.terms(), list, alias)
}

/// The same for a pair that may be of the other input, which is then left out.
fn merge_entry(
    tables: &mut Tables,
    replacing: ReplaceMap<'_>,
    entry: Extracted,
    side: Side,
    list: &mut Table<ExprId, 64>,
) -> Result<(), Fault>
    requires inside { MapIn (view_in tables.old) replacing }
    requires totals { any (is_total (view_in tables.old).functions) (map_of (view_in tables.old) replacing).1 ≡ false }
    requires entry { entry_in (view_in tables.old) entry ≡ true }
    requires list { all_below (length (view_in tables.old).trees) (numbers_of list.old) ≡ true }
    requires few { length list.old ≤ 64 }
    ensures answer { PairsMerged tables.old replacing.entry (pairs_at (view_in tables.old) side entry) (entry.alias + 1) list.old result list.new tables.new }
    ensures begins { TablesBegin tables.old tables.new }
{
    if !is_same(entry.side, side) {
        return Ok(());
    }
    merge_pair(tables, replacing, entry, list)
}

/// Merges the pairs of an input into a list, in the order in which they were found.
pub(crate) fn add_pairs(
    tables: &mut Tables,
    replacing: ReplaceMap<'_>,
    extractor: &Extractor,
    side: Side,
    list: &mut Table<ExprId, 64>,
) -> Result<(), Fault>
    requires inside { MapIn (view_in tables.old) replacing }
    requires totals { any (is_total (view_in tables.old).functions) (map_of (view_in tables.old) replacing).1 ≡ false }
    requires extractor { Inside (view_in tables.old) extractor.now }
    requires list { all_below (length (view_in tables.old).trees) (numbers_of list.old) ≡ true }
    requires few { length list.old ≤ 64 }
    ensures answer { PairsMerged tables.old replacing.entry (at_side (view_in tables.old) extractor.now side) extractor.now.next list.old result list.new tables.new }
    ensures begins { TablesBegin tables.old tables.new }
{
    for entry in extractor.entries() {
        merge_entry(tables, replacing, *entry, side, list)?;
    }
    Ok(())
}
