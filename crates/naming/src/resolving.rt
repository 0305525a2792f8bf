//! Which field a reference means.
ghost use Rattle.std.specs.Prelude.{◌≡◌, ◌+◌, ◌<◌, ◌≤◌, true, ◌++◌, map, length, count_by};
ghost use Rattle.plan.specs.Fields.{any, every, named, resolved, resolves};
ghost use Rattle.plan.specs.Terms.{same_field, same_qualifier};
ghost use Rattle.names.specs.Spans.{span_in, word};
ghost use Rattle.entries.specs.Spans.{qualifier_at, qualifier_in, stored_field, stored_in};
ghost use Rattle.terms.specs.Views.{count, tree_of, view_of};

use entries::listed::Listed;
use entries::node::{ExprId, ExprNode, Span, StoredField};
use terms::terms::Terms;

fn same_qualifier(terms: &Terms, a: Option<Span>, b: Option<Span>) -> bool
    requires left { qualifier_in (view_of terms.now).bytes a ≡ true }
    requires right { qualifier_in (view_of terms.now).bytes b ≡ true }
    ensures { result ≡ same_qualifier (qualifier_at (view_of terms.now).bytes a) (qualifier_at (view_of terms.now).bytes b) }
{
    a.map(|s| terms.word(s)) == b.map(|s| terms.word(s))
}

/// Whether two fields are the same.
pub fn same_field(terms: &Terms, a: StoredField, b: StoredField) -> bool
    requires left { stored_in (view_of terms.now).bytes a ≡ true }
    requires right { stored_in (view_of terms.now).bytes b ≡ true }
    ensures { result ≡ same_field (stored_field (view_of terms.now).bytes a) (stored_field (view_of terms.now).bytes b) }
{
    same_qualifier(terms, a.qualifier, b.qualifier) && terms.word(a.name) == terms.word(b.name)
}

/// How many fields have a name.
// A loop with an index: a rule of the project, which counts the fields of a name in this form.
fn count_named(terms: &Terms, fields: &[StoredField], name: Span) -> usize
    requires stored { every (stored_in (view_of terms.now).bytes) fields.now ≡ true }
    requires name { span_in (view_of terms.now).bytes name ≡ true }
    ensures value { result ≡ count_by (named (word (view_of terms.now).bytes name)) (map (stored_field (view_of terms.now).bytes) fields.now) }
    ensures bound { result ≤ length fields.now }
{
    let mut count = 0;
    for i in 0..fields.len() {
        if terms.word(name) == terms.word(fields[i].name) {
            count += 1;
        }
    }
    count
}

/// Whether a field is among others.
fn has_field(terms: &Terms, fields: &[StoredField], field: StoredField) -> bool
    requires stored { every (stored_in (view_of terms.now).bytes) fields.now ≡ true }
    requires field { stored_in (view_of terms.now).bytes field ≡ true }
    ensures { result ≡ any (same_field (stored_field (view_of terms.now).bytes field)) (map (stored_field (view_of terms.now).bytes) fields.now) }
{
    fields.iter().any(|other| same_field(terms, field, *other))
}

/// Whether a reference resolves among the fields of one or two inputs.
fn resolves(terms: &Terms, left: &[StoredField], right: &[StoredField], field: StoredField) -> bool
    requires left { every (stored_in (view_of terms.now).bytes) left.now ≡ true }
    requires right { every (stored_in (view_of terms.now).bytes) right.now ≡ true }
    requires field { stored_in (view_of terms.now).bytes field ≡ true }
    ensures { result ≡ resolves (map (stored_field (view_of terms.now).bytes) left.now ++ map (stored_field (view_of terms.now).bytes) right.now) (stored_field (view_of terms.now).bytes field) }
{
    match field.qualifier {
        None => {
            let here = count_named(terms, left, field.name);
            let there = count_named(terms, right, field.name);
            here.saturating_add(there) == 1
        }
        Some(_) => has_field(terms, left, field) || has_field(terms, right, field),
    }
}

/// Whether every reference of an expression resolves among the fields of one or two inputs.
// A struct of `left` and `right` would be taken by three functions (`all_resolved` of tables too) and made in four.
pub fn resolved(terms: &Terms, left: &[StoredField], right: &[StoredField], e: ExprId) -> bool
    requires left { every (stored_in (view_of terms.now).bytes) left.now ≡ true }
    requires right { every (stored_in (view_of terms.now).bytes) right.now ≡ true }
    requires present { e.0 < count terms.now }
    ensures { result ≡ resolved (map (stored_field (view_of terms.now).bytes) left.now ++ map (stored_field (view_of terms.now).bytes) right.now) (tree_of terms.now e.0) }
{
    match terms.node(e) {
        ExprNode::Constant(_) => true,
        ExprNode::Reference(field) => resolves(terms, left, right, field),
        ExprNode::Alias { inner, .. } => resolved(terms, left, right, inner),
        ExprNode::Call { arguments, .. } => {
            let listed = terms.entries(arguments);
            // A `for`: `all` is no plainer here, since the function would call itself inside a closure, and the proof would
            // need a measure of both.
            for entry in listed {
                if !resolved(terms, left, right, ExprId::read(*entry)) {
                    return false;
                }
            }
            true
        }
    }
}
