//! What the book promises of its nodes.
ghost use Rattle.std.specs.Prelude.{◌≡◌, true, Ok};
ghost use Rattle.book.specs.Opened.{SameReport, Told, book_of};
ghost use Rattle.rewriting.specs.Book.{Law};

use super::OpenBook;
use entries::node::PlanId;
use plan::fault::{Fault, Question, ask};

impl OpenBook {
    fn ask_origin(&self, a: PlanId, b: PlanId) -> Result<bool, Fault>
        ensures { Told (book_of self.now) a.0 b.0 result }
    {
        ask(self.tables.has(a), Question::Present)?;
        ask(self.tables.has(b), Question::Present)?;
        Ok(self.tables.same_origin(a, b))
    }

    /// Whether two nodes have one origin. If so, they give the same report: the same fields, and the same rows in the same
    /// order, whatever the tables hold and whichever engine that fits the book values its functions.
    ///
    /// The law behind it is of every book, after any list of calls; here it is said whole.
    pub fn same_report(&self, a: PlanId, b: PlanId) -> Result<bool, Fault>
        ensures told { Told (book_of self.now) a.0 b.0 result }
        ensures same { result ≡ Ok true → SameReport (book_of self.now) a.0 b.0 }
        ensures law { Law }
    {
        self.ask_origin(a, b)
    }
}
