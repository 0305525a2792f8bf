//! The inputs of the node that is asked about, and which of them owns an expression.
ghost use Rattle.extracting.specs.Owners.{inputs_in, owner_by};
ghost use Rattle.plan.specs.Model.{expr_in};
ghost use Rattle.routing.specs.Sides.{side_of};
ghost use Rattle.std.specs.Prelude.{◌≡◌, ◌<◌, true, length, option_map};
ghost use Rattle.tables.specs.Holding.{nodes_of, plan_count, view_in};

use entries::node::{ExprId, PlanId};
use routing::owning::{Side, find_owning_input, find_sole_input};
use tables::tables::Tables;

/// The one input of a node, or its two.
#[derive(Clone, Copy)]
pub enum Inputs {
    One(PlanId),
    Two(PlanId, PlanId),
}

/// The input that owns an expression.
pub fn owning_input(tables: &Tables, inputs: Inputs, e: ExprId) -> Option<Side>
    requires inputs { inputs_in (plan_count tables.now) inputs ≡ true }
    requires present { e.0 < length (view_in tables.now).trees }
    ensures { option_map side_of result ≡ owner_by (view_in tables.now).functions (nodes_of tables.now) inputs (expr_in (view_in tables.now).trees e.0) }
{
    match inputs {
        Inputs::One(input) => find_sole_input(tables.terms(), tables.fields_of(input), e),
        Inputs::Two(left, right) => find_owning_input(
            tables.terms(),
            tables.fields_of(left),
            tables.fields_of(right),
            e,
        ),
    }
}
