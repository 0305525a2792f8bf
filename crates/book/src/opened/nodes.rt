//! The calls that make a node of a plan.
ghost use Rattle.book.specs.Opened.{book_of};
ghost use Rattle.plan.specs.Calls.Call.{make_aggregate, make_filter, make_join, make_limit, make_projection, make_sort, make_subquery_alias, make_table, make_union};
ghost use Rattle.rewriting.specs.Book.Request.{build};
ghost use Rattle.rewriting.specs.Book.{Answers};
ghost use Rattle.tables.specs.Answering.{answered_plan};
ghost use Rattle.building.specs.Keys.{key_pairs};
ghost use Rattle.stored.specs.Making.{input_numbers};
ghost use Rattle.terms.specs.Views.{numbers_of};

use super::OpenBook;
use building::{nodes, wider};
use entries::node::{ExprId, PlanId};
use plan::fault::Fault;
use stored::node::Key;

impl OpenBook {
    /// A Table: a qualifier, and the names of its fields parted by commas.
    pub fn table<'x>(&mut self, qualifier: &'x [u8], names: &'x [u8]) -> Result<PlanId, Fault>
        ensures { Answers (book_of self.old) (build (make_table qualifier.now names.now)) (answered_plan result) (book_of self.new) }
    {
        nodes::table(&mut self.tables, qualifier, names)
    }

    /// A Projection of 1 to 64 expressions.
    pub fn projection(&mut self, input: PlanId, list: &[ExprId]) -> Result<PlanId, Fault>
        ensures { Answers (book_of self.old) (build (make_projection input.0 (numbers_of list.now))) (answered_plan result) (book_of self.new) }
    {
        nodes::projection(&mut self.tables, input, list)
    }

    /// A Filter: the rows where the predicate is true.
    pub fn filter(&mut self, input: PlanId, predicate: ExprId) -> Result<PlanId, Fault>
        ensures { Answers (book_of self.old) (build (make_filter input.0 predicate.0)) (answered_plan result) (book_of self.new) }
    {
        nodes::filter(&mut self.tables, input, predicate)
    }

    /// A Sort by 1 to 16 keys.
    pub fn sort(&mut self, input: PlanId, keys: &[Key]) -> Result<PlanId, Fault>
        ensures { Answers (book_of self.old) (build (make_sort input.0 (key_pairs keys.now))) (answered_plan result) (book_of self.new) }
    {
        wider::sort(&mut self.tables, input, keys)
    }

    /// A Limit: so many rows are skipped, and then at most so many kept.
    pub fn limit(&mut self, input: PlanId, skip: u32, count: u32) -> Result<PlanId, Fault>
        ensures { Answers (book_of self.old) (build (make_limit input.0 skip count)) (answered_plan result) (book_of self.new) }
    {
        nodes::limit(&mut self.tables, input, skip, count)
    }

    /// An Aggregate: at most 16 groups and at most 16 totals, and at least one together.
    pub fn aggregate<'x>(
        &mut self,
        input: PlanId,
        groups: &'x [ExprId],
        totals: &'x [ExprId],
    ) -> Result<PlanId, Fault>
        ensures { Answers (book_of self.old) (build (make_aggregate input.0 (numbers_of groups.now) (numbers_of totals.now))) (answered_plan result) (book_of self.new) }
    {
        wider::aggregate(&mut self.tables, input, groups, totals)
    }

    /// A Join by the kind of this number, on at most 16 conditions.
    // A number, since outside a book codes and refusals are known by number.
    pub fn join(
        &mut self,
        kind: u8,
        left: PlanId,
        right: PlanId,
        on: &[ExprId],
    ) -> Result<PlanId, Fault>
        ensures { Answers (book_of self.old) (build (make_join kind left.0 right.0 (numbers_of on.now))) (answered_plan result) (book_of self.new) }
    {
        wider::join(&mut self.tables, kind, left, right, on)
    }

    /// A SubqueryAlias: its name qualifies every field.
    pub fn subquery_alias(&mut self, input: PlanId, name: &[u8]) -> Result<PlanId, Fault>
        ensures { Answers (book_of self.old) (build (make_subquery_alias input.0 name.now)) (answered_plan result) (book_of self.new) }
    {
        nodes::subquery_alias(&mut self.tables, input, name)
    }

    /// A Union of 1 to 8 inputs of the same width.
    pub fn union(&mut self, inputs: &[PlanId]) -> Result<PlanId, Fault>
        ensures { Answers (book_of self.old) (build (make_union (input_numbers inputs.now))) (answered_plan result) (book_of self.new) }
    {
        wider::union(&mut self.tables, inputs)
    }
}
