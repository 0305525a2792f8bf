//! Functions are declared, and then the book is opened; after that none can be declared.
ghost use Rattle.book.specs.Declaration.{declared_in, text_in};
ghost use Rattle.book.specs.Opened.{book_of};
ghost use Rattle.plan.specs.Model.{opened};
ghost use Rattle.std.specs.Prelude.{◌≡◌, [], replicate, None};
ghost use Rattle.lexicon.specs.Declaring.{DeclareAnswered};

use super::Book;
use crate::opened::OpenBook;
use lexicon::lexicon::Lexicon;
use plan::fault::Fault;

impl Book {
    /// No function.
    pub fn new() -> Book
        ensures functions { declared_in result ≡ replicate 64 None }
        ensures text { text_in result ≡ [] }
    {
        Book {
            lexicon: Lexicon::new(),
        }
    }

    /// Declares a function: a free number from 0 to 63, a name, 0 to 4 arguments, a rule from 0 to 4.
    // The rule comes as its number, since outside a book codes and refusals are known by number.
    pub fn declare(
        &mut self,
        number: u8,
        name: &[u8],
        arity: u8,
        rule: u8,
        strict: bool,
    ) -> Result<(), Fault>
        ensures { DeclareAnswered self.old.lexicon number name.now arity rule strict result self.new.lexicon }
    {
        self.lexicon.declare(number, name, arity, rule, strict)
    }

    /// The open book with the functions that were declared.
    pub fn open(self) -> OpenBook
        ensures { book_of result ≡ opened (declared_in self) (text_in self) }
    {
        OpenBook::open(self.lexicon)
    }
}
