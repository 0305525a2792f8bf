//! A node with one input replaced by another of the same origin.
ghost use Rattle.std.specs.Prelude.{◌≡◌, ◌<◌, ◌&&◌, length, nat_lt};
ghost use Rattle.plan.specs.Calls.{below};
ghost use Rattle.plan.specs.Model.{inputs_at};
ghost use Rattle.plan.specs.Swapping.{SwapAnswers};
ghost use Rattle.tables.specs.Answering.{answered_plan};
ghost use Rattle.tables.specs.Holding.{model_of, plan_count};

use crate::remaking::remake;
use entries::node::PlanId;
use plan::fault::{Fault, Question, ask};
use tables::tables::Tables;

// Free functions, here and in `remaking`: Tables is a type of another crate, so that they cannot be its methods.

/// Whether two nodes stand in the book.
fn has_both(tables: &Tables, a: PlanId, b: PlanId) -> bool
    ensures { result ≡ (below (plan_count tables.now) a.0 && below (plan_count tables.now) b.0) }
{
    tables.has(a) && tables.has(b)
}

/// Whether a node has an input at a position.
fn has_input(tables: &Tables, p: PlanId, position: u32) -> bool
    requires { p.0 < plan_count tables.now }
    ensures { result ≡ nat_lt position (length (inputs_at (model_of tables.now) p.0)) }
{
    position < tables.input_count(p)
}

/// A node like `node`, with `input` in place of its input at a position. Both inputs have one origin, and the new
/// node has the origin of `node`.
pub fn swap(
    tables: &mut Tables,
    node: PlanId,
    position: u32,
    input: PlanId,
) -> Result<PlanId, Fault>
    ensures { SwapAnswers (model_of tables.old) node.0 position input.0 (answered_plan result) (model_of tables.new) }
{
    ask(has_both(tables, node, input), Question::Present)?;
    ask(has_input(tables, node, position), Question::Bounded)?;
    let old = tables.input_at(node, position);
    ask(tables.same_origin(old, input), Question::SameOrigin)?;
    let origin = tables.record_of(node).origin;
    let new = remake(tables, node, position, input)?;
    tables.give_origin(new, origin);
    Ok(new)
}
