//! A book as a reader sees it; the methods stand below.
ghost use Rattle.std.specs.Prelude.{◌≡◌};

use tables::tables::Tables;

mod reading;
mod tracing;

/// A book as a reader sees it: its nodes, expressions, fields, words and lists.
#[derive(Clone, Copy)]
pub struct Reader<'a> {
    tables: &'a Tables,
}

impl<'a> Reader<'a> {
    /// The book that these tables hold.
    pub fn new(tables: &'a Tables) -> Reader<'a>
        ensures { result.tables.now ≡ tables.now }
    {
        Reader { tables }
    }
}
