//! A node without the Marked calls that one of its inputs owns.
ghost use Rattle.book.specs.Opened.{book_of};
ghost use Rattle.leaf_expressions.specs.Comes.{answered};
ghost use Rattle.rewriting.specs.Book.Request.{extract as extract_request};
ghost use Rattle.rewriting.specs.Book.{Answers};

use super::OpenBook;
use entries::node::PlanId;
use leaf_expressions::extract::extract_from_plan;
use plan::fault::Fault;

impl OpenBook {
    /// A version of `node` that gives the same report and leaves no Marked call, outside prefixed aliases, that exactly one
    /// of its inputs owns: what is taken out stands under generated aliases over that input. The new node has the origin of
    /// `node`. None where nothing changes.
    pub fn extract(&mut self, node: PlanId) -> Result<Option<PlanId>, Fault>
        ensures { Answers (book_of self.old) (extract_request node.0) (answered result) (book_of self.new) }
    {
        extract_from_plan(&mut self.tables, node)
    }
}
