//! Which input of a node owns an expression.
ghost use Rattle.plan.specs.Fields.{any, every};
ghost use Rattle.plan.specs.Plans.{without_qualifier};
ghost use Rattle.plan.specs.Terms.{same_field};
ghost use Rattle.rewriting.specs.Routing.{find_owning_input, find_sole_input, has_all_column_refs, owner_of, schema_columns};
ghost use Rattle.routing.specs.Sides.{column_of, side_of};
ghost use Rattle.std.specs.Prelude.{◌≡◌, ◌<◌, true, List, ℕ, map, option_map};
ghost use Rattle.entries.specs.Spans.{stored_field, stored_in};
ghost use Rattle.terms.specs.Views.{count, tree_of, view_of};

use entries::listed::Listed;
use entries::node::{ExprId, ExprNode, StoredField};
use naming::resolving::same_field;
use terms::terms::Terms;

/// The first or the second input of a node.
#[derive(Clone, Copy, PartialEq, Eq, Debug)]
pub enum Side {
    First,
    Second,
}

/// A field's name, of no relation.
fn without_qualifier(field: StoredField) -> StoredField
    ensures field { (bytes : List ℕ) → stored_field bytes result ≡ without_qualifier (stored_field bytes field) }
    ensures inside { (bytes : List ℕ) → stored_in bytes field ≡ true → stored_in bytes result ≡ true }
{
    StoredField {
        qualifier: None,
        name: field.name,
    }
}

/// Whether a reference is a field, or its name without qualifier.
fn is_column_of(terms: &Terms, reference: StoredField, field: StoredField) -> bool
    requires reference { stored_in (view_of terms.now).bytes reference ≡ true }
    requires field { stored_in (view_of terms.now).bytes field ≡ true }
    ensures { result ≡ column_of (stored_field (view_of terms.now).bytes reference) (stored_field (view_of terms.now).bytes field) }
{
    same_field(terms, reference, field) || same_field(terms, reference, without_qualifier(field))
}

/// Whether a reference is one of the columns of some fields.
fn is_column(terms: &Terms, fields: &[StoredField], reference: StoredField) -> bool
    requires stored { every (stored_in (view_of terms.now).bytes) fields.now ≡ true }
    requires reference { stored_in (view_of terms.now).bytes reference ≡ true }
    ensures { result ≡ any (same_field (stored_field (view_of terms.now).bytes reference)) (schema_columns (map (stored_field (view_of terms.now).bytes) fields.now)) }
{
    fields
        .iter()
        .any(|field| is_column_of(terms, reference, *field))
}

/// Whether each reference of an expression is one of the columns of some fields.
pub fn has_all_column_refs(terms: &Terms, fields: &[StoredField], e: ExprId) -> bool
    requires stored { every (stored_in (view_of terms.now).bytes) fields.now ≡ true }
    requires present { e.0 < count terms.now }
    ensures { result ≡ has_all_column_refs (schema_columns (map (stored_field (view_of terms.now).bytes) fields.now)) (tree_of terms.now e.0) }
{
    match terms.node(e) {
        ExprNode::Constant(_) => true,
        ExprNode::Reference(field) => is_column(terms, fields, field),
        ExprNode::Alias { inner, .. } => has_all_column_refs(terms, fields, inner),
        ExprNode::Call { arguments, .. } => {
            for entry in terms.entries(arguments) {
                if !has_all_column_refs(terms, fields, ExprId::read(*entry)) {
                    return false;
                }
            }
            true
        }
    }
}

/// The one of two inputs that owns an expression.
#[tactic(auto, unfolding(rewriting::specs::Routing::owner_of))]
fn owner(first: bool, second: bool) -> Option<Side>
    ensures { option_map side_of result ≡ owner_of first second }
{
    match (first, second) {
        (true, false) => Some(Side::First),
        (false, true) => Some(Side::Second),
        _ => None,
    }
}

/// The input that owns an expression, of the only one.
#[tactic(auto, unfolding(rewriting::specs::Routing::find_sole_input))]
pub fn find_sole_input(terms: &Terms, fields: &[StoredField], e: ExprId) -> Option<Side>
    requires stored { every (stored_in (view_of terms.now).bytes) fields.now ≡ true }
    requires present { e.0 < count terms.now }
    ensures { option_map side_of result ≡ find_sole_input (schema_columns (map (stored_field (view_of terms.now).bytes) fields.now)) (tree_of terms.now e.0) }
{
    owner(has_all_column_refs(terms, fields, e), false)
}

/// The input that owns an expression, of two; none where both do.
#[tactic(auto, unfolding(rewriting::specs::Routing::find_owning_input))]
pub fn find_owning_input(
    terms: &Terms,
    left: &[StoredField],
    right: &[StoredField],
    e: ExprId,
) -> Option<Side>
    requires left { every (stored_in (view_of terms.now).bytes) left.now ≡ true }
    requires right { every (stored_in (view_of terms.now).bytes) right.now ≡ true }
    requires present { e.0 < count terms.now }
    ensures { option_map side_of result ≡ find_owning_input (schema_columns (map (stored_field (view_of terms.now).bytes) left.now)) (schema_columns (map (stored_field (view_of terms.now).bytes) right.now)) (tree_of terms.now e.0) }
{
    owner(
        has_all_column_refs(terms, left, e),
        has_all_column_refs(terms, right, e),
    )
}
