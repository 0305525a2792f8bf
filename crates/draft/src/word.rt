//! What a draft is made of.
use entries::node::{ExprId, Span};

/// A word, by where it is.
// No `==`: words are equal by their bytes, which `same_word` compares.
#[derive(Clone, Copy)]
pub enum Word {
    /// A part of the book's text.
    Stored(Span),
    /// The whole of the lent owner's name.
    Owner,
    /// A part of the lent names.
    Given(Span),
    /// An expression's rendered name.
    Rendered(ExprId),
}

/// Which relation a column is of, by where its name is: a part of the book's text, or the lent owner.
// Not an `Option`: the owner is a relation that is said, and `None` beside it stands for none.
#[derive(Clone, Copy)]
pub enum Relation {
    Of(Span),
    OfOwner,
}

/// A column that is not stored yet.
// Not one generic with `StoredField`: two fields, and each clause would name both parameters. No `==`, as there.
#[derive(Clone, Copy)]
pub struct DraftField {
    pub qualifier: Option<Relation>,
    pub name: Word,
}
