//! A node on another input of the same origin.
ghost use Rattle.book.specs.Opened.{book_of};
ghost use Rattle.rewriting.specs.Book.Request.{swap as swap_request};
ghost use Rattle.rewriting.specs.Book.{Answers};
ghost use Rattle.tables.specs.Answering.{answered_plan};

use super::OpenBook;
use entries::node::PlanId;
use plan::fault::Fault;
use swapping::swapping::swap;

impl OpenBook {
    /// A node like `node`, with `input` in place of its input at a position. Both inputs have one origin, and the new
    /// node has the origin of `node`.
    pub fn swap(&mut self, node: PlanId, position: u32, input: PlanId) -> Result<PlanId, Fault>
        ensures { Answers (book_of self.old) (swap_request node.0 position input.0) (answered_plan result) (book_of self.new) }
    {
        swap(&mut self.tables, node, position, input)
    }
}
