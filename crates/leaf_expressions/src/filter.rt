//! Extract of a Filter.
ghost use Rattle.leaf_expressions.specs.Comes.{Comes, extracted};
ghost use Rattle.plan.specs.Model.{expr_in};
ghost use Rattle.plan.specs.Plans.Plan.{filter};
ghost use Rattle.std.specs.Prelude.{◌≡◌, ◌<◌, length};
ghost use Rattle.stepping.specs.Steps.{AllGood};
ghost use Rattle.tables.specs.Begun.{TablesBegin};
ghost use Rattle.tables.specs.Holding.{model_of, plan_count, tree_in, view_in};

use crate::over::rebuilt_over;
use crate::shape::Shape;
use entries::node::{ExprId, PlanId};
use extracting::extractor::Extractor;
use extracting::inputs::Inputs;
use extracting::walking::routing_extract;
use numbering::next::next_number;
use plan::fault::Fault;
use routing::marked::has_extractable_expr;
use tables::tables::Tables;

/// What is Marked is taken out of the predicate.
pub(crate) fn extract_filter(
    tables: &mut Tables,
    p: PlanId,
    input: PlanId,
    predicate: ExprId,
) -> Result<Option<PlanId>, Fault>
    requires node { p.0 < plan_count tables.old }
    requires input { input.0 < plan_count tables.old }
    requires present { predicate.0 < length (view_in tables.old).trees }
    requires tree { tree_in tables.old p.0 ≡ filter (expr_in (view_in tables.old).trees predicate.0) (tree_in tables.old input.0) }
    requires good { AllGood (model_of tables.old) }
    ensures comes { Comes (model_of tables.old) (extracted tables.old p.0) result (model_of tables.new) }
    ensures begins { TablesBegin tables.old tables.new }
{
    if !has_extractable_expr(tables.terms(), &[predicate]) {
        return Ok(None);
    }
    let mut extractor = Extractor::starting_at(next_number(tables));
    let predicate = routing_extract(tables, Inputs::One(input), predicate, &mut extractor)?;
    if !extractor.is_new() {
        return Ok(None);
    }
    let new = rebuilt_over(tables, p, input, &extractor, Shape::Filter { predicate })?;
    Ok(Some(new))
}
