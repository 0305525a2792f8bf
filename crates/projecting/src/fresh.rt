//! The fresh Projection over an input: what was taken out for it, each expression under its alias, and then every field.
ghost use Rattle.extracting.specs.Extractors.{Inside, entry_in};
ghost use Rattle.plan.specs.Calls.{good_field};
ghost use Rattle.plan.specs.Faults.{fault};
ghost use Rattle.plan.specs.Fields.{every};
ghost use Rattle.plan.specs.declared.fault.Question.TheVariants.{Limited as LimitedQuestion};
ghost use Rattle.plan.specs.declared.fault.Stage.TheVariants.{Extraction as ExtractionStage};
ghost use Rattle.projecting.specs.Freshly.{AliasedBy, PairsBy, entry_tree, entry_trees, fresh_outcome, fresh_tree, trees_for};
ghost use Rattle.rewriting.specs.Limits.{OnlyEight};
ghost use Rattle.rewriting.specs.Routing.{same_side, unalias};
ghost use Rattle.routing.specs.Sides.{side_of};
ghost use Rattle.std.specs.Prelude.{◌≡◌, ◌+◌, ◌<◌, true};
ghost use Rattle.stepping.specs.Lists.{NoTotals, at_side};
ghost use Rattle.stepping.specs.Steps.{Steps};
ghost use Rattle.tables.specs.Begun.{TablesBegin};
ghost use Rattle.tables.specs.Holding.{fields_at, model_of, plan_count, view_in};
ghost use Rattle.terms.specs.Views.{count, tree_of};

use crate::columns::{copied_fields, push_columns};
use entries::node::{ExprId, ExprNode, PlanId};
use extracting::extractor::{Extracted, Extractor};
use numbering::alias::generated;
use plan::fault::{Fault, Question, Stage};
use routing::owning::Side;
use stepping::making::{at_stage, make_at};
use stored::node::NewNode;
use table::table::Table;
use tables::tables::Tables;
use terms::terms::Terms;

/// Whether an entry is of this input.
#[tactic(auto, unfolding(rewriting::specs::Routing::same_side))]
pub fn is_of(entry: Extracted, side: Side) -> bool
    ensures { result ≡ same_side (side_of entry.side) (side_of side) }
{
    matches!(
        (entry.side, side),
        (Side::First, Side::First) | (Side::Second, Side::Second)
    )
}

/// An expression, less one alias.
#[tactic(auto, unfolding(rewriting::specs::Routing::unalias))]
fn unaliased(terms: &Terms, e: ExprId) -> ExprId
    requires { e.0 < count terms.now }
    ensures present { result.0 < count terms.now }
    ensures tree { tree_of terms.now result.0 ≡ unalias (tree_of terms.now e.0) }
{
    match terms.node(e) {
        ExprNode::Constant(_) => e,
        ExprNode::Reference(_) => e,
        ExprNode::Alias { inner, .. } => inner,
        ExprNode::Call { .. } => e,
    }
}

/// The refusal of a Projection that would be too large.
fn too_large() -> Fault
    ensures { result ≡ fault LimitedQuestion ExtractionStage 0 }
{
    at_stage(Question::Limited.refusal(), Stage::Extraction, 0)
}

/// The expression of an entry, less one alias, under the entry's alias.
fn aliased(tables: &mut Tables, entry: Extracted) -> Result<ExprId, Fault>
    requires inside { entry_in (view_in tables.old) entry ≡ true }
    ensures answer { AliasedBy tables.old (entry_tree (view_in tables.old) entry) (entry.alias + 1) result tables.new }
    ensures begins { TablesBegin tables.old tables.new }
{
    let inner = unaliased(tables.terms(), entry.inner);
    // A match: of the closure that `map_err` takes only its own contract is known.
    match tables.alias(inner, &generated(entry.alias), None) {
        Ok(made) => Ok(made),
        Err(refused) => Err(at_stage(refused, Stage::Extraction, 0)),
    }
}

/// Puts the expression of an entry behind those of a list, if the entry is of this input.
fn push_entry(
    tables: &mut Tables,
    entry: Extracted,
    side: Side,
    list: &mut Table<ExprId, 64>,
) -> Result<(), Fault>
    requires inside { entry_in (view_in tables.old) entry ≡ true }
    ensures answer { PairsBy tables.old (entry_trees (view_in tables.old) side entry) (entry.alias + 1) list.old result list.new tables.new }
    ensures begins { TablesBegin tables.old tables.new }
{
    if !is_of(entry, side) {
        return Ok(());
    }
    if list.room() == 0 {
        return Err(too_large());
    }
    let made = aliased(tables, entry)?;
    list.push(made);
    Ok(())
}

/// Puts the expressions that were taken out for an input behind those of a list.
fn push_pairs(
    tables: &mut Tables,
    extractor: &Extractor,
    side: Side,
    list: &mut Table<ExprId, 64>,
) -> Result<(), Fault>
    requires inside { Inside (view_in tables.old) extractor.now }
    ensures answer { PairsBy tables.old (trees_for (view_in tables.old) extractor.now side) extractor.now.next list.old result list.new tables.new }
    ensures begins { TablesBegin tables.old tables.new }
{
    for entry in extractor.entries() {
        push_entry(tables, *entry, side, list)?;
    }
    Ok(())
}

/// The fresh Projection over an input.
pub fn freshly(
    tables: &mut Tables,
    extractor: &Extractor,
    side: Side,
    input: PlanId,
) -> Result<PlanId, Fault>
    requires present { input.0 < plan_count tables.old }
    requires fields { every good_field (fields_at tables.old input.0) ≡ true }
    requires inside { Inside (view_in tables.old) extractor.now }
    requires only { OnlyEight (view_in tables.old).functions (fresh_tree tables.old extractor.now side input.0) }
    requires plain { NoTotals (view_in tables.old).functions (at_side (view_in tables.old) extractor.now side) }
    ensures steps { Steps (model_of tables.old) extractor.now.next (fresh_outcome tables.old extractor.now side input.0) result (model_of tables.new) }
    ensures begins { TablesBegin tables.old tables.new }
{
    let mut list = Table::new(ExprId(0));
    push_pairs(tables, extractor, side, &mut list)?;
    let fields = copied_fields(tables, input);
    if list.room() < fields.len() {
        return Err(too_large());
    }
    push_columns(tables, fields.as_slice(), &mut list)?;
    let node = NewNode::Projection {
        input,
        list: list.as_slice(),
    };
    make_at(tables, node, Stage::Extraction, 0)
}
