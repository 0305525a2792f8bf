//! The calls that make an expression.
ghost use Rattle.tables.specs.Answering.{answered_expr};
ghost use Rattle.tables.specs.Begun.{TablesBegin};
ghost use Rattle.tables.specs.Holding.{model_of, view_in};
ghost use Rattle.tables.specs.Reusing.{Reused};
ghost use Rattle.std.specs.Prelude.{◌≡◌, ◌<◌, true, length};
ghost use Rattle.plan.specs.Calls.Call.{make_alias, make_call, make_literal, make_reference};
ghost use Rattle.plan.specs.Calls.{Answers, good_alias, good_field};
ghost use Rattle.plan.specs.Model.{expr_in};
ghost use Rattle.plan.specs.Questions.{small_tree};
ghost use Rattle.plan.specs.Terms.Expr.{alias as alias_tree, reference as reference_tree};
ghost use Rattle.expression.specs.Building.{given_field, given_literal};
ghost use Rattle.entries.specs.Spans.{stored_field, stored_in};
ghost use Rattle.terms.specs.Views.{numbers_of};

use super::Tables;
use entries::node::{ExprId, StoredField};
use expression::building::GivenLiteral;
use expression::{building, calling, reusing};
use plan::fault::Fault;

impl Tables {
    /// A literal.
    pub fn literal(&mut self, given: GivenLiteral<'_>) -> Result<ExprId, Fault>
        ensures answer { Answers (model_of self.old) (make_literal (given_literal given.entry)) (answered_expr result) (model_of self.new) }
        ensures begins { TablesBegin self.old self.new }
    {
        building::literal(&mut self.terms, given)
    }

    /// A reference to a column.
    pub fn reference(&mut self, name: &[u8], qualifier: Option<&[u8]>) -> Result<ExprId, Fault>
        ensures answer { Answers (model_of self.old) (make_reference (given_field name.now qualifier.entry)) (answered_expr result) (model_of self.new) }
        ensures begins { TablesBegin self.old self.new }
    {
        building::reference(&mut self.terms, name, qualifier)
    }

    /// An expression under another name.
    pub fn alias(
        &mut self,
        inner: ExprId,
        name: &[u8],
        qualifier: Option<&[u8]>,
    ) -> Result<ExprId, Fault>
        ensures answer { Answers (model_of self.old) (make_alias inner.0 (given_field name.now qualifier.entry)) (answered_expr result) (model_of self.new) }
        ensures begins { TablesBegin self.old self.new }
    {
        building::alias(&mut self.terms, inner, name, qualifier)
    }

    /// A call of a declared function.
    pub fn call(&mut self, function: u8, arguments: &[ExprId]) -> Result<ExprId, Fault>
        ensures answer { Answers (model_of self.old) (make_call function (numbers_of arguments.now)) (answered_expr result) (model_of self.new) }
        ensures begins { TablesBegin self.old self.new }
    {
        calling::call(&mut self.terms, function, arguments)
    }

    /// A reference to a field that is stored already.
    pub fn column(&mut self, field: StoredField) -> Result<ExprId, Fault>
        requires stored { stored_in (view_in self.old).bytes field ≡ true }
        requires good { good_field (stored_field (view_in self.old).bytes field) ≡ true }
        ensures answer { Reused (model_of self.old) (reference_tree (stored_field (view_in self.old).bytes field)) result (model_of self.new) }
        ensures begins { TablesBegin self.old self.new }
    {
        reusing::column(&mut self.terms, field)
    }

    /// An expression under the name of a field that is stored already.
    pub fn alias_as(&mut self, inner: ExprId, field: StoredField) -> Result<ExprId, Fault>
        requires present { inner.0 < length (view_in self.old).trees }
        requires stored { stored_in (view_in self.old).bytes field ≡ true }
        requires good { good_alias (stored_field (view_in self.old).bytes field) ≡ true }
        requires small { small_tree (alias_tree (expr_in (view_in self.old).trees inner.0) (stored_field (view_in self.old).bytes field)) ≡ true }
        ensures answer { Reused (model_of self.old) (alias_tree (expr_in (view_in self.old).trees inner.0) (stored_field (view_in self.old).bytes field)) result (model_of self.new) }
        ensures begins { TablesBegin self.old self.new }
    {
        reusing::alias_as(&mut self.terms, inner, field)
    }
}
