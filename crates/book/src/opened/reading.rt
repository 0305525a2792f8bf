//! The book as a reader sees it.
ghost use Rattle.std.specs.Prelude.{◌≡◌};

use super::OpenBook;
use looking::reader::Reader;

impl OpenBook {
    /// The book as a reader sees it: its nodes, expressions, fields, words and lists.
    // What the reader says of its tables it says of `book_of self`, which is the model of these tables.
    pub fn reader(&self) -> Reader<'_>
        ensures { result.tables.now ≡ self.now.tables }
    {
        Reader::new(&self.tables)
    }
}
