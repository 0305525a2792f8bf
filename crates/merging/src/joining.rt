//! What joins the list of a Projection that pairs are merged into.
ghost use Rattle.merging.specs.Joining.{Listed, ListedBy, too_large};
ghost use Rattle.plan.specs.Calls.{all_below};
ghost use Rattle.plan.specs.Fields.{any, lawful};
ghost use Rattle.plan.specs.Model.{expr_in, exprs_in};
ghost use Rattle.plan.specs.Rendering.{field_of};
ghost use Rattle.plan.specs.Terms.{same_expr};
ghost use Rattle.rewriting.specs.Extracting.{add_column, add_pair};
ghost use Rattle.rows.specs.Rows.{may_mean};
ghost use Rattle.std.specs.Prelude.{◌≡◌, ◌<◌, ◌≤◌, true, ◌&&◌, ◌++◌, [], ◌∷◌, length, map};
ghost use Rattle.entries.specs.Spans.{stored_field, stored_in};
ghost use Rattle.tables.specs.Holding.{fields_at, plan_count, view_in};
ghost use Rattle.terms.specs.Views.{AllPresent, count, numbers_of, tree_of, view_of};

use draft::building::push_expressions;
use draft::lawful::Source;
use draft::word::{DraftField, Word};
use entries::node::{ExprId, ExprNode, PlanId, StoredField};
use plan::fault::{Fault, Question, Stage};
use routing::same::same_expr;
use routing::seeking::may_mean_any;
use table::table::Table;
use tables::tables::Tables;
use terms::terms::Terms;

/// The refusal of a list that is too large for a Projection.
pub(crate) fn too_large() -> Fault
    ensures { result ≡ too_large }
{
    Fault {
        question: Question::Limited,
        stage: Stage::Merge,
        level: 0,
    }
}

/// Puts an expression behind a list.
fn join(terms: &Terms, list: &mut Table<ExprId, 64>, e: ExprId) -> Result<(), Fault>
    requires list { AllPresent terms.now list.old }
    requires present { e.0 < count terms.now }
    ensures { ListedBy (view_of terms.now) (exprs_in (view_of terms.now).trees (numbers_of list.old) ++ tree_of terms.now e.0 ∷ []) result list.new }
{
    if list.room() == 0 {
        return Err(too_large());
    }
    list.push(e);
    Ok(())
}

/// Whether an equal expression is in a list.
fn has_equal(terms: &Terms, list: &[ExprId], e: ExprId) -> bool
    requires list { AllPresent terms.now list.now }
    requires present { e.0 < count terms.now }
    ensures { result ≡ any (same_expr (tree_of terms.now e.0)) (exprs_in (view_of terms.now).trees (numbers_of list.now)) }
{
    list.iter().any(|held| same_expr(terms, e, *held))
}

/// Puts an alias behind a list, unless an equal one is there.
pub(crate) fn add_pair(
    terms: &Terms,
    list: &mut Table<ExprId, 64>,
    alias: ExprId,
) -> Result<(), Fault>
    requires list { AllPresent terms.now list.old }
    requires few { length list.old ≤ 64 }
    requires present { alias.0 < count terms.now }
    ensures { ListedBy (view_of terms.now) (add_pair (tree_of terms.now alias.0) (exprs_in (view_of terms.now).trees (numbers_of list.old))) result list.new }
{
    if has_equal(terms, list.as_slice(), alias) {
        return Ok(());
    }
    join(terms, list, alias)
}

/// Whether the fields of a list, and of one expression more, may stand in one list.
fn is_lawful_with(terms: &Terms, list: &[ExprId], e: ExprId) -> bool
    requires list { AllPresent terms.now list.now }
    requires few { length list.now ≤ 64 }
    requires present { e.0 < count terms.now }
    ensures { result ≡ lawful (map (field_of (view_of terms.now).functions) (exprs_in (view_of terms.now).trees (numbers_of list.now) ++ tree_of terms.now e.0 ∷ [])) }
{
    let mut draft = Table::new(DraftField {
        qualifier: None,
        name: Word::Owner,
    });
    push_expressions(terms, &mut draft, list);
    push_expressions(terms, &mut draft, &[e]);
    let source = Source {
        terms,
        owner: b"",
        given: b"",
    };
    source.is_lawful(draft.as_slice())
}

/// Whether a reference joins a list: it may mean a field of the input, and the fields stay lawful.
fn joins(tables: &Tables, under: PlanId, e: ExprId, reference: StoredField, list: &[ExprId]) -> bool
    requires under { under.0 < plan_count tables.now }
    requires stored { stored_in (view_in tables.now).bytes reference ≡ true }
    requires list { all_below (length (view_in tables.now).trees) (numbers_of list.now) ≡ true }
    requires few { length list.now ≤ 64 }
    requires present { e.0 < length (view_in tables.now).trees }
    ensures { result ≡ (any (may_mean (stored_field (view_in tables.now).bytes reference)) (fields_at tables.now under.0) && lawful (map (field_of (view_in tables.now).functions) (exprs_in (view_in tables.now).trees (numbers_of list.now) ++ expr_in (view_in tables.now).trees e.0 ∷ []))) }
{
    may_mean_any(tables.terms(), tables.fields_of(under), reference)
        && is_lawful_with(tables.terms(), list, e)
}

/// Puts what stands in for a column behind a list, if it is a column of the input and the fields stay lawful.
pub(crate) fn add_column(
    tables: &Tables,
    under: PlanId,
    e: ExprId,
    list: &mut Table<ExprId, 64>,
) -> Result<(), Fault>
    requires under { under.0 < plan_count tables.now }
    requires present { e.0 < length (view_in tables.now).trees }
    requires list { all_below (length (view_in tables.now).trees) (numbers_of list.old) ≡ true }
    requires few { length list.old ≤ 64 }
    ensures { ListedBy (view_in tables.now) (add_column (view_in tables.now).functions (fields_at tables.now under.0) (expr_in (view_in tables.now).trees e.0) (exprs_in (view_in tables.now).trees (numbers_of list.old))) result list.new }
{
    match tables.terms().node(e) {
        ExprNode::Constant(_) => Ok(()),
        ExprNode::Reference(reference) => {
            if !joins(tables, under, e, reference, list.as_slice()) {
                return Ok(());
            }
            join(tables.terms(), list, e)
        }
        ExprNode::Alias { .. } => Ok(()),
        ExprNode::Call { .. } => Ok(()),
    }
}
