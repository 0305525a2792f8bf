//! The place of the field that a reference means.
ghost use Rattle.rows.specs.Rows.{may_mean, seek, under};
ghost use Rattle.entries.specs.Spans.{qualifier_at, qualifier_in, stored_field, stored_in};
ghost use Rattle.terms.specs.Views.{view_of};
ghost use Rattle.std.specs.Prelude.{◌≡◌, true, map};

use crate::valuing::Row;
use entries::node::{Span, StoredField};

impl Row<'_> {
    /// Whether the first qualifier is not said, or both are the same.
    #[tactic(auto, unfolding(rows::specs::Rows::under))]
    fn is_under(&self, a: Option<Span>, b: Option<Span>) -> bool
        requires left { qualifier_in (view_of self.now.terms.now).bytes a ≡ true }
        requires right { qualifier_in (view_of self.now.terms.now).bytes b ≡ true }
        ensures { result ≡ under (qualifier_at (view_of self.now.terms.now).bytes a) (qualifier_at (view_of self.now.terms.now).bytes b) }
    {
        a.is_none() || a.map(|s| self.terms.word(s)) == b.map(|s| self.terms.word(s))
    }

    /// Whether a reference may mean a field.
    fn may_mean(&self, reference: StoredField, field: StoredField) -> bool
        requires reference { stored_in (view_of self.now.terms.now).bytes reference ≡ true }
        requires field { stored_in (view_of self.now.terms.now).bytes field ≡ true }
        ensures { result ≡ may_mean (stored_field (view_of self.now.terms.now).bytes reference) (stored_field (view_of self.now.terms.now).bytes field) }
    {
        self.is_under(reference.qualifier, field.qualifier)
            && self.terms.word(reference.name) == self.terms.word(field.name)
    }

    /// The place of the first field that a reference may mean; where there is none, the number of fields.
    // A number, not an Option: its one caller knows that there is a field, and would only unwrap.
    pub(crate) fn seek(&self, reference: StoredField) -> usize
        requires { stored_in (view_of self.now.terms.now).bytes reference ≡ true }
        ensures { result ≡ seek (stored_field (view_of self.now.terms.now).bytes reference) (map (stored_field (view_of self.now.terms.now).bytes) self.now.fields.now) }
    {
        self.fields
            .iter()
            .position(|field| self.may_mean(reference, *field))
            .unwrap_or(self.fields.len())
    }
}
