//! Whether the fields of a draft may stand in one list.
ghost use Rattle.std.specs.Prelude.{◌≡◌, ◌≤◌, true, ◌||◌, map, length, Some};
ghost use Rattle.plan.specs.Fields.{any, clash, every, lawful};
ghost use Rattle.plan.specs.Terms.Qualifier.{qualified};
ghost use Rattle.plan.specs.Terms.{is_unqualified, same_qualifier};
ghost use Rattle.std.specs.Str.{bytes_eq};
ghost use Rattle.names.specs.Spans.{span_in, word as word_of};

use crate::word::{DraftField, Relation, Word};
use entries::node::Span;
use naming::rendering::render;
use table::table::Table;
use terms::terms::Terms;

/// The part of a text that a span names.
// No method of `Span`: only here is one read in a plain slice, and the other spans are parts of a table.
fn piece(text: &[u8], s: Span) -> &[u8]
    requires { span_in text.now s ≡ true }
    ensures { result.now ≡ word_of text.now s }
{
    let start = s.start as usize;
    &text[start..start + s.len as usize]
}

/// Where two words are written that are compared.
#[derive(Drop)]
struct Buffers {
    left: Table<u8, 131072>,
    right: Table<u8, 131072>,
}

/// Where a draft's words are: in the book's text, in the lent owner's name, or in the lent names.
#[derive(Clone, Copy)]
pub struct Source<'a> {
    pub terms: &'a Terms,
    pub owner: &'a [u8],
    pub given: &'a [u8],
    ghost owner_fits: { length owner.now ≤ 131072 },
    ghost given_fits: { length given.now ≤ 131072 },
}

impl Source<'_> {
    ghost use Rattle.draft.specs.Sources.{field_from, has_field, has_owner, has_word, owner_from, word_from};

    /// Writes a word into a buffer, over what it held.
    fn spell(&self, word: Word, out: &mut Table<u8, 131072>)
        requires { has_word self.now word ≡ true }
        ensures { out.new ≡ word_from self.now word }
    {
        out.truncate(0);
        match word {
            Word::Stored(s) => out.extend(self.terms.word(s)),
            Word::Owner => out.extend(self.owner),
            Word::Given(s) => out.extend(piece(self.given, s)),
            Word::Rendered(e) => render(self.terms, e, out),
        }
    }

    /// Whether two words are the same.
    fn same_word(&self, a: Word, b: Word, buffers: &mut Buffers) -> bool
        requires left { has_word self.now a ≡ true }
        requires right { has_word self.now b ≡ true }
        ensures { result ≡ bytes_eq (word_from self.now a) (word_from self.now b) }
    {
        self.spell(a, &mut buffers.left);
        self.spell(b, &mut buffers.right);
        buffers.left.as_slice() == buffers.right.as_slice()
    }

    /// The name of a relation.
    fn relation(&self, relation: Relation) -> &[u8]
        requires { has_owner self.now (Some relation) ≡ true }
        ensures { owner_from self.now (Some relation) ≡ qualified result.now }
    {
        match relation {
            Relation::Of(s) => self.terms.word(s),
            Relation::OfOwner => self.owner,
        }
    }

    /// Whether fields of one name and these qualifiers may not stand in one list.
    fn owners_meet(&self, a: Option<Relation>, b: Option<Relation>) -> bool
        requires left { has_owner self.now a ≡ true }
        requires right { has_owner self.now b ≡ true }
        ensures { result ≡ (same_qualifier (owner_from self.now a) (owner_from self.now b) || (is_unqualified (owner_from self.now a) || is_unqualified (owner_from self.now b))) }
    {
        match (a, b) {
            (Some(a), Some(b)) => self.relation(a) == self.relation(b),
            _ => true,
        }
    }

    /// Whether two fields may not stand in one list.
    fn clashes(&self, a: DraftField, b: DraftField, buffers: &mut Buffers) -> bool
        requires left { has_field self.now a ≡ true }
        requires right { has_field self.now b ≡ true }
        ensures { result ≡ clash (field_from self.now a) (field_from self.now b) }
    {
        self.same_word(a.name, b.name, buffers) && self.owners_meet(a.qualifier, b.qualifier)
    }

    /// Whether a field clashes with one of others.
    fn clashes_with(&self, field: DraftField, others: &[DraftField], buffers: &mut Buffers) -> bool
        requires field { has_field self.now field ≡ true }
        requires others { every (has_field self.now) others.now ≡ true }
        ensures { result ≡ any (clash (field_from self.now field)) (map (field_from self.now) others.now) }
    {
        // A `for`: in `any` the closure writes the buffers, and what it asks and what it answers stay open.
        for other in others {
            if self.clashes(field, *other, buffers) {
                return true;
            }
        }
        false
    }

    /// Whether the fields of a draft may stand in one list.
    pub fn is_lawful(&self, draft: &[DraftField]) -> bool
        requires { every (has_field self.now) draft.now ≡ true }
        ensures { result ≡ lawful (map (field_from self.now) draft.now) }
    {
        let mut buffers = Buffers {
            left: Table::new(0),
            right: Table::new(0),
        };
        // Each field against those after it, which `split_first` gives together.
        let mut rest = draft;
        while let Some((field, others)) = rest.split_first() {
            if self.clashes_with(*field, others, &mut buffers) {
                return false;
            }
            rest = others;
        }
        true
    }
}
