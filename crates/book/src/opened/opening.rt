//! A book that was just opened.
ghost use Rattle.book.specs.Opened.{book_of};
ghost use Rattle.plan.specs.Model.{opened};
ghost use Rattle.lexicon.specs.Lexicon.{functions_of, text_of};
ghost use Rattle.std.specs.Prelude.{◌≡◌};

use super::OpenBook;
use lexicon::lexicon::Lexicon;
use tables::tables::Tables;

impl OpenBook {
    /// No expression and no node.
    pub fn open(lexicon: Lexicon) -> OpenBook
        ensures { book_of result ≡ opened (functions_of lexicon) (text_of lexicon) }
    {
        OpenBook {
            tables: Tables::open(lexicon),
        }
    }
}
