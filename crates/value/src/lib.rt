//! The values of rows. A text is not copied: a value says which bytes of one of two lent texts it is.
#![tactic(auto)]

ghost use Rattle.plan.specs.Values.{is_null_value};
ghost use Rattle.value.specs.Meanings.{Shows, bytes_of, meaning_of, part_of, side_of};
ghost use Rattle.std.specs.Prelude.{◌≡◌, option_copied};

use plan::fault::{Fault, Question};

/// Which of the two lent texts a text value lies in.
#[derive(Clone, Copy, PartialEq, Eq, Debug)]
pub enum Side {
    /// The book's text, in which its literals stand.
    Book,
    /// The row text, which comes with the rows.
    Row,
}

/// A part of one of the two texts. One that reaches past the end of its text counts as null.
// A start and a length: a slice would tie every row, and the scratch of evaluate, to one borrow of the book.
// Not a Span: this crate stands beside names, not above it. `==` compares the places, not the bytes.
#[derive(Clone, Copy, PartialEq, Eq, Debug)]
pub struct Text {
    pub side: Side,
    pub start: u32,
    pub len: u32,
}

impl Text {
    /// Its bytes, unless it reaches past the end.
    fn within<'a>(self, book: &'a [u8], row: &'a [u8]) -> Option<&'a [u8]>
        ensures { option_copied result ≡ bytes_of (part_of (side_of book.now row.now self.side) self.start self.len) }
    {
        let text = match self.side {
            Side::Book => book,
            Side::Row => row,
        };
        let start = self.start as usize;
        text.get(start..start + self.len as usize)
    }
}

/// What a column of a row holds.
// Not terms' Literal: a value's text lies in one of two texts, and a value may be a record.
// No `==`: it would compare the places of texts, where values are equal by their bytes.
#[derive(Clone, Copy, Debug)]
pub enum Value {
    Null,
    Truth(bool),
    Whole(i64),
    Real(f64),
    Text(Text),
    /// The number of a record, whose fields an engine knows.
    Record(u32),
}

/// The bytes that a text value names, out of the book's text or the row text. Any other value is refused, and so is
/// a text that reaches past the end.
// Two lent slices, not one struct: a named form of the project.
pub fn shown<'a>(book: &'a [u8], row: &'a [u8], v: Value) -> Result<&'a [u8], Fault>
    ensures { Shows (bytes_of (meaning_of book.now row.now v)) result }
{
    let bytes = match v {
        Value::Text(part) => part.within(book, row),
        _ => None,
    };
    bytes.ok_or(Question::Bounded.refusal())
}

/// Whether a value counts as null.
// Two slices, as in shown.
pub fn is_null(book: &[u8], row: &[u8], v: Value) -> bool
    ensures { result ≡ is_null_value (meaning_of book.now row.now v) }
{
    match v {
        Value::Null => true,
        Value::Text(part) => part.within(book, row).is_none(),
        _ => false,
    }
}
