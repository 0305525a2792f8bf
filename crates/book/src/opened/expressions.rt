//! The calls that make an expression.
ghost use Rattle.book.specs.Opened.{book_of};
ghost use Rattle.plan.specs.Calls.Call.{make_alias, make_call, make_literal, make_reference};
ghost use Rattle.plan.specs.Terms.Literal.{null as null_literal, real as real_literal, text as text_literal, truth as truth_literal, whole as whole_literal};
ghost use Rattle.rewriting.specs.Book.Request.{build};
ghost use Rattle.rewriting.specs.Book.{Answers};
ghost use Rattle.tables.specs.Answering.{answered_expr};
ghost use Rattle.expression.specs.Building.{given_field};
ghost use Rattle.terms.specs.Views.{numbers_of};

use super::OpenBook;
use entries::node::ExprId;
use expression::building::GivenLiteral;
use plan::fault::Fault;

impl OpenBook {
    /// The null literal.
    pub fn null(&mut self) -> Result<ExprId, Fault>
        ensures { Answers (book_of self.old) (build (make_literal null_literal)) (answered_expr result) (book_of self.new) }
    {
        self.tables.literal(GivenLiteral::Null)
    }

    /// A truth literal.
    pub fn truth(&mut self, b: bool) -> Result<ExprId, Fault>
        ensures { Answers (book_of self.old) (build (make_literal (truth_literal b))) (answered_expr result) (book_of self.new) }
    {
        self.tables.literal(GivenLiteral::Truth(b))
    }

    /// A whole number.
    pub fn whole(&mut self, n: i64) -> Result<ExprId, Fault>
        ensures { Answers (book_of self.old) (build (make_literal (whole_literal n))) (answered_expr result) (book_of self.new) }
    {
        self.tables.literal(GivenLiteral::Whole(n))
    }

    /// A real.
    pub fn real(&mut self, x: f64) -> Result<ExprId, Fault>
        ensures { Answers (book_of self.old) (build (make_literal (real_literal x))) (answered_expr result) (book_of self.new) }
    {
        self.tables.literal(GivenLiteral::Real(x))
    }

    /// A text literal.
    pub fn text(&mut self, bytes: &[u8]) -> Result<ExprId, Fault>
        ensures { Answers (book_of self.old) (build (make_literal (text_literal bytes.now))) (answered_expr result) (book_of self.new) }
    {
        self.tables.literal(GivenLiteral::Text(bytes))
    }

    /// A reference to a column.
    pub fn reference(&mut self, name: &[u8], qualifier: Option<&[u8]>) -> Result<ExprId, Fault>
        ensures { Answers (book_of self.old) (build (make_reference (given_field name.now qualifier.entry))) (answered_expr result) (book_of self.new) }
    {
        self.tables.reference(name, qualifier)
    }

    /// An expression under another name.
    pub fn alias(
        &mut self,
        inner: ExprId,
        name: &[u8],
        qualifier: Option<&[u8]>,
    ) -> Result<ExprId, Fault>
        ensures { Answers (book_of self.old) (build (make_alias inner.0 (given_field name.now qualifier.entry))) (answered_expr result) (book_of self.new) }
    {
        self.tables.alias(inner, name, qualifier)
    }

    /// A call of a declared function.
    pub fn call(&mut self, function: u8, arguments: &[ExprId]) -> Result<ExprId, Fault>
        ensures { Answers (book_of self.old) (build (make_call function (numbers_of arguments.now))) (answered_expr result) (book_of self.new) }
    {
        self.tables.call(function, arguments)
    }
}
