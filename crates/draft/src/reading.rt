//! What is asked of the fields that expressions give a node.
ghost use Rattle.std.specs.Prelude.{◌≡◌, ◌<◌, ◌≤◌, true, length, sum_by};
ghost use Rattle.draft.specs.Drafts.{FieldFor, as_stored};
ghost use Rattle.plan.specs.Calls.{all_below, rendered_bytes};
ghost use Rattle.plan.specs.Fields.{every};
ghost use Rattle.plan.specs.Model.{exprs_in};
ghost use Rattle.plan.specs.Questions.{short_name};
ghost use Rattle.terms.specs.Views.{count, numbers_of, tree_of, view_of};

use crate::word::{DraftField, Relation, Word};
use entries::node::{ExprId, ExprNode, StoredField};
use terms::terms::Terms;

/// A stored field as it is.
pub(crate) fn as_stored(field: StoredField) -> DraftField
    ensures { result ≡ as_stored field }
{
    DraftField {
        qualifier: field.qualifier.map(Relation::Of),
        name: Word::Stored(field.name),
    }
}

/// The field that an expression has in a Projection or an Aggregate.
pub fn field_of(terms: &Terms, e: ExprId) -> DraftField
    requires { e.0 < count terms.now }
    ensures { FieldFor (view_of terms.now) (tree_of terms.now e.0) result }
{
    let rendered = DraftField {
        qualifier: None,
        name: Word::Rendered(e),
    };
    match terms.node(e) {
        ExprNode::Constant(_) | ExprNode::Call { .. } => rendered,
        ExprNode::Reference(field) | ExprNode::Alias { field, .. } => as_stored(field),
    }
}

/// How many bytes an expression's field takes for a rendered name: none where it has a name of its own.
fn rendered_len(terms: &Terms, e: ExprId) -> u32
    requires { e.0 < count terms.now }
    ensures value { result ≡ rendered_bytes (view_of terms.now).functions (tree_of terms.now e.0) }
    ensures bound { result ≤ 130816 }
{
    match terms.node(e) {
        ExprNode::Reference(_) | ExprNode::Alias { .. } => 0,
        ExprNode::Constant(_) | ExprNode::Call { .. } => terms.width(e),
    }
}

/// Whether each field of some expressions that takes its name by rendering has at most 255 bytes.
// Numbers from a caller: that all are there is a clause, as in `terms`.
pub fn has_short_names(terms: &Terms, ids: &[ExprId]) -> bool
    requires { all_below (count terms.now) (numbers_of ids.now) ≡ true }
    ensures { result ≡ every (short_name (view_of terms.now).functions) (exprs_in (view_of terms.now).trees (numbers_of ids.now)) }
{
    ids.iter().all(|id| rendered_len(terms, *id) <= 255)
}

/// How many bytes the rendered names of some expressions take together.
// As in `has_short_names`.
pub fn rendered_bytes(terms: &Terms, ids: &[ExprId]) -> usize
    requires present { all_below (count terms.now) (numbers_of ids.now) ≡ true }
    requires few { length ids.now ≤ 64 }
    ensures value { result ≡ sum_by (rendered_bytes (view_of terms.now).functions) (exprs_in (view_of terms.now).trees (numbers_of ids.now)) }
    ensures bound { result ≤ 8372224 }
{
    ids.iter().map(|id| rendered_len(terms, *id) as usize).sum()
}
