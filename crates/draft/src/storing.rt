//! How the fields of a draft are stored.
ghost use Rattle.std.specs.Prelude.{◌≡◌, ◌+◌, ◌<◌, ◌≤◌, true, [], length};
ghost use Rattle.draft.specs.Drafts.{LentIn, StoredAll, StoredAs, WordAs, draft_bytes, draft_in, field_bytes, stored_qualifier, word_bytes, word_in};
ghost use Rattle.plan.specs.Fields.{every};
ghost use Rattle.plan.specs.Rendering.{rendered};
ghost use Rattle.terms.specs.Begun.{TermsBegin};
ghost use Rattle.terms.specs.Build.{width_of};
ghost use Rattle.names.specs.Spans.{span_in, word as word_of};
ghost use Rattle.terms.specs.Views.{count, grown, tree_of, view_of};

use crate::word::{DraftField, Relation, Word};
use entries::node::{ExprId, Span, StoredField};
use naming::rendering::render;
use table::table::Table;
use terms::terms::Terms;

/// Where the lent owner's name and the lent names stand in the text.
// That they are inside is no ghost field: it is a fact about the text, which grows while fields are stored.
#[derive(Clone, Copy)]
pub struct Lent {
    pub owner: Span,
    pub given: Span,
}

/// Adds an expression's rendered name to the text.
fn write_rendered(terms: &mut Terms, e: ExprId) -> Span
    requires present { e.0 < count terms.old }
    requires room { length (view_of terms.old).bytes + width_of (view_of terms.old).functions (tree_of terms.old e.0) ≤ 16384 }
    ensures view { view_of terms.new ≡ grown (view_of terms.old) [] (rendered (view_of terms.old).functions (tree_of terms.old e.0)) [] }
    ensures inside { span_in (view_of terms.new).bytes result ≡ true }
    ensures word { word_of (view_of terms.new).bytes result ≡ rendered (view_of terms.old).functions (tree_of terms.old e.0) }
    ensures begins { TermsBegin terms.old terms.new }
{
    let mut name = Table::new(0);
    render(terms, e, &mut name);
    terms.write(name.as_slice())
}

/// A word as a part of the text.
fn store_word(terms: &mut Terms, lent: Lent, word: Word) -> Span
    requires lent { LentIn (view_of terms.old).bytes lent }
    requires inside { word_in (view_of terms.old) (word_of (view_of terms.old).bytes lent.owner) (word_of (view_of terms.old).bytes lent.given) word ≡ true }
    requires room { length (view_of terms.old).bytes + word_bytes (view_of terms.old) word ≤ 16384 }
    ensures word { WordAs (view_of terms.old) lent word (view_of terms.new) result }
    ensures begins { TermsBegin terms.old terms.new }
{
    match word {
        Word::Stored(s) => s,
        Word::Owner => lent.owner,
        Word::Given(s) => Span {
            start: lent.given.start + s.start,
            len: s.len,
        },
        Word::Rendered(e) => write_rendered(terms, e),
    }
}

fn stored_qualifier(owner: Span, qualifier: Option<Relation>) -> Option<Span>
    ensures { result ≡ stored_qualifier owner qualifier }
{
    qualifier.map(|relation| match relation {
        Relation::Of(s) => s,
        Relation::OfOwner => owner,
    })
}

fn store_field(terms: &mut Terms, lent: Lent, field: DraftField) -> StoredField
    requires lent { LentIn (view_of terms.old).bytes lent }
    requires inside { draft_in (view_of terms.old) (word_of (view_of terms.old).bytes lent.owner) (word_of (view_of terms.old).bytes lent.given) field ≡ true }
    requires room { length (view_of terms.old).bytes + field_bytes (view_of terms.old) field ≤ 16384 }
    ensures field { StoredAs (view_of terms.old) lent field (view_of terms.new) result }
    ensures begins { TermsBegin terms.old terms.new }
{
    let name = store_word(terms, lent, field.name);
    StoredField {
        qualifier: stored_qualifier(lent.owner, field.qualifier),
        name,
    }
}

/// Stores the fields of a draft.
pub fn store(
    terms: &mut Terms,
    fields: &mut Table<StoredField, 2048>,
    lent: Lent,
    draft: &[DraftField],
)
    requires lent { LentIn (view_of terms.old).bytes lent }
    requires inside { every (draft_in (view_of terms.old) (word_of (view_of terms.old).bytes lent.owner) (word_of (view_of terms.old).bytes lent.given)) draft.now ≡ true }
    requires fields { length fields.old + length draft.now ≤ 2048 }
    requires bytes { length (view_of terms.old).bytes + draft_bytes (view_of terms.old) draft.now ≤ 16384 }
    ensures all { StoredAll (view_of terms.old) (word_of (view_of terms.old).bytes lent.owner) (word_of (view_of terms.old).bytes lent.given) draft.now fields.old (view_of terms.new) fields.new }
    ensures begins { TermsBegin terms.old terms.new }
{
    // A `for`: `push_each` takes an `Fn`, and storing a field writes the text.
    for field in draft {
        fields.push(store_field(terms, lent, *field));
    }
}
