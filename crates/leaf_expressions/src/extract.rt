//! Extract: Marked calls that one input owns are taken out of a node and put under aliases over that input.
ghost use Rattle.leaf_expressions.specs.Comes.{Comes, answered, extracted};
ghost use Rattle.rewriting.specs.Book.{Rewrites};
ghost use Rattle.std.specs.Prelude.{◌≡◌, ◌<◌};
ghost use Rattle.stepping.specs.Steps.{AllGood};
ghost use Rattle.tables.specs.Begun.{TablesBegin};
ghost use Rattle.tables.specs.Holding.{model_of, plan_count};

use crate::aggregate::extract_aggregate;
use crate::filter::extract_filter;
use crate::join::extract_join;
use crate::sort::extract_sort;
use attempt::Attempt;
use entries::node::PlanId;
use plan::fault::{Fault, Question, ask};
use stored::node::PlanNode;
use tables::tables::Tables;

/// The node rebuilt over its inputs with what was taken out; none where nothing moves.
fn extract_node(tables: &mut Tables, p: PlanId) -> Result<Option<PlanId>, Fault>
    requires node { p.0 < plan_count tables.old }
    requires good { AllGood (model_of tables.old) }
    ensures comes { Comes (model_of tables.old) (extracted tables.old p.0) result (model_of tables.new) }
    ensures begins { TablesBegin tables.old tables.new }
{
    // One arm for each kind that has something to take out: the match says what the kinds mean.
    match tables.record_of(p).node {
        PlanNode::Filter { input, predicate } => extract_filter(tables, p, input, predicate),
        PlanNode::Sort { input, keys } => extract_sort(tables, p, input, keys),
        PlanNode::Aggregate {
            input,
            groups,
            totals,
        } => extract_aggregate(tables, p, input, groups, totals),
        PlanNode::Join {
            kind,
            left,
            right,
            on,
        } => extract_join(tables, p, kind, left, right, on),
        _ => Ok(None),
    }
}

/// A version of a node that leaves no Marked call which exactly one of its inputs owns, with the origin of the node; none
/// where nothing changes. A refusal, and an answer that nothing changes, leave the tables as they were.
pub fn extract_from_plan(tables: &mut Tables, p: PlanId) -> Result<Option<PlanId>, Fault>
    requires { AllGood (model_of tables.old) }
    ensures { Rewrites (model_of tables.old) p.0 (extracted tables.old p.0) (answered result) (model_of tables.new) }
{
    ask(tables.has(p), Question::Present)?;
    let attempt = Attempt::begin(tables);
    match extract_node(attempt.tables, p)? {
        None => Ok(None),
        Some(new) => {
            let origin = attempt.tables.origin_of(p);
            attempt.tables.give_origin(new, origin);
            attempt.keep();
            Ok(Some(new))
        }
    }
}
