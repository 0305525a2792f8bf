//! The calls that make a node of a plan: each asks the questions of its own, and then the node is made.
ghost use Rattle.tables.specs.Answering.{answered_plan};
ghost use Rattle.tables.specs.Holding.{model_of, plan_count, view_in};
ghost use Rattle.plan.specs.Calls.Call.{make_filter, make_limit, make_projection, make_subquery_alias, make_table};
ghost use Rattle.plan.specs.Calls.{Answers, all_below, below, between, parts};
ghost use Rattle.plan.specs.Fields.{every};
ghost use Rattle.plan.specs.Functions.{is_total};
ghost use Rattle.plan.specs.Names.{good_name};
ghost use Rattle.terms.specs.Views.{numbers_of};
ghost use Rattle.std.specs.Prelude.{◌≡◌, true, ◌&&◌, length, nat_le};

use asking::making::make;
use entries::node::{ExprId, PlanId};
use names::good_name;
use names::parts::{count_names, good_names};
use plan::fault::{Fault, Question, ask};
use stored::node::NewNode;
use tables::tables::Tables;

// Free functions: Tables is a type of another crate, so that they cannot be its methods, and a wrapper would only hold it.
fn good_table(qualifier: &[u8], names: &[u8]) -> bool
    ensures { result ≡ (good_name qualifier.now && every good_name (parts names.now)) }
{
    good_name(qualifier) && good_names(names)
}

fn few_names(names: &[u8]) -> bool
    ensures { result ≡ nat_le (length (parts names.now)) 64 }
{
    count_names(names) <= 64
}

pub(crate) fn is_count(low: usize, high: usize, count: usize) -> bool
    ensures { result ≡ between low high count }
{
    (low..=high).contains(&count)
}

/// Whether a node and some expressions stand in the book.
fn has_list(tables: &Tables, input: PlanId, ids: &[ExprId]) -> bool
    ensures { result ≡ (below (plan_count tables.now) input.0 && all_below (length (view_in tables.now).trees) (numbers_of ids.now)) }
{
    tables.has(input) && tables.terms().has_all(ids)
}

fn has_expr(tables: &Tables, input: PlanId, e: ExprId) -> bool
    ensures { result ≡ (below (plan_count tables.now) input.0 && below (length (view_in tables.now).trees) e.0) }
{
    tables.has(input) && tables.terms().has(e)
}

/// A Table: a qualifier, and the names of its fields parted by commas.
pub fn table<'x>(tables: &mut Tables, qualifier: &'x [u8], names: &'x [u8]) -> Result<PlanId, Fault>
    ensures { Answers (model_of tables.old) (make_table qualifier.now names.now) (answered_plan result) (model_of tables.new) }
{
    ask(good_table(qualifier, names), Question::Named)?;
    ask(few_names(names), Question::Bounded)?;
    make(tables, NewNode::Table { qualifier, names })
}

/// A Projection of 1 to 64 expressions.
pub fn projection(tables: &mut Tables, input: PlanId, list: &[ExprId]) -> Result<PlanId, Fault>
    ensures { Answers (model_of tables.old) (make_projection input.0 (numbers_of list.now)) (answered_plan result) (model_of tables.new) }
{
    ask(has_list(tables, input, list), Question::Present)?;
    ask(is_count(1, 64, list.len()), Question::Bounded)?;
    ask(!tables.terms().any_total(list), Question::Placed)?;
    make(tables, NewNode::Projection { input, list })
}

/// A Filter: the rows where the predicate is true.
pub fn filter(tables: &mut Tables, input: PlanId, predicate: ExprId) -> Result<PlanId, Fault>
    ensures { Answers (model_of tables.old) (make_filter input.0 predicate.0) (answered_plan result) (model_of tables.new) }
{
    ask(has_expr(tables, input, predicate), Question::Present)?;
    ask(!tables.terms().is_total(predicate), Question::Placed)?;
    make(tables, NewNode::Filter { input, predicate })
}

/// A Limit: so many rows are skipped, and then at most so many kept.
pub fn limit(tables: &mut Tables, input: PlanId, skip: u32, count: u32) -> Result<PlanId, Fault>
    ensures { Answers (model_of tables.old) (make_limit input.0 skip count) (answered_plan result) (model_of tables.new) }
{
    ask(tables.has(input), Question::Present)?;
    make(tables, NewNode::Limit { input, skip, count })
}

/// A SubqueryAlias: its name qualifies every field.
pub fn subquery_alias(tables: &mut Tables, input: PlanId, name: &[u8]) -> Result<PlanId, Fault>
    ensures { Answers (model_of tables.old) (make_subquery_alias input.0 name.now) (answered_plan result) (model_of tables.new) }
{
    ask(tables.has(input), Question::Present)?;
    ask(good_name(name), Question::Named)?;
    make(tables, NewNode::SubqueryAlias { input, name })
}
