//! Which of some fields a reference finds: the first that it may mean.
ghost use Rattle.plan.specs.Fields.{any, every};
ghost use Rattle.rows.specs.Rows.{may_mean, seek, under};
ghost use Rattle.std.specs.Prelude.{◌≡◌, true, map};
ghost use Rattle.entries.specs.Spans.{qualifier_at, qualifier_in, stored_field, stored_in};
ghost use Rattle.terms.specs.Views.{view_of};

use entries::node::{Span, StoredField};
use terms::terms::Terms;

/// Whether the first qualifier is not said, or both are the same.
#[tactic(auto, unfolding(rows::specs::Rows::under))]
fn is_under(terms: &Terms, a: Option<Span>, b: Option<Span>) -> bool
    requires left { qualifier_in (view_of terms.now).bytes a ≡ true }
    requires right { qualifier_in (view_of terms.now).bytes b ≡ true }
    ensures { result ≡ under (qualifier_at (view_of terms.now).bytes a) (qualifier_at (view_of terms.now).bytes b) }
{
    a.is_none() || a.map(|s| terms.word(s)) == b.map(|s| terms.word(s))
}

/// Whether a reference may mean a field.
pub fn may_mean(terms: &Terms, reference: StoredField, field: StoredField) -> bool
    requires reference { stored_in (view_of terms.now).bytes reference ≡ true }
    requires field { stored_in (view_of terms.now).bytes field ≡ true }
    ensures { result ≡ may_mean (stored_field (view_of terms.now).bytes reference) (stored_field (view_of terms.now).bytes field) }
{
    is_under(terms, reference.qualifier, field.qualifier)
        && terms.word(reference.name) == terms.word(field.name)
}

/// Whether a reference may mean one of some fields.
pub fn may_mean_any(terms: &Terms, fields: &[StoredField], reference: StoredField) -> bool
    requires stored { every (stored_in (view_of terms.now).bytes) fields.now ≡ true }
    requires reference { stored_in (view_of terms.now).bytes reference ≡ true }
    ensures { result ≡ any (may_mean (stored_field (view_of terms.now).bytes reference)) (map (stored_field (view_of terms.now).bytes) fields.now) }
{
    fields
        .iter()
        .any(|field| may_mean(terms, reference, *field))
}

/// The place of the first field that a reference may mean; where there is none, the number of fields.
// A number, not an Option, as the definition has it: the place past the end is where a caller has what stands for none.
pub fn seek(terms: &Terms, fields: &[StoredField], reference: StoredField) -> usize
    requires stored { every (stored_in (view_of terms.now).bytes) fields.now ≡ true }
    requires reference { stored_in (view_of terms.now).bytes reference ≡ true }
    ensures { result ≡ seek (stored_field (view_of terms.now).bytes reference) (map (stored_field (view_of terms.now).bytes) fields.now) }
{
    fields
        .iter()
        .position(|field| may_mean(terms, reference, *field))
        .unwrap_or(fields.len())
}
