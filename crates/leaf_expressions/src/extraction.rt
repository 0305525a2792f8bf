//! An input with what was taken out for it under aliases over it.
ghost use Rattle.extracting.specs.Extractors.{Inside};
ghost use Rattle.leaf_expressions.specs.Found.{Found, projected};
ghost use Rattle.plan.specs.Fields.{any};
ghost use Rattle.rewriting.specs.Routing.{same_side};
ghost use Rattle.routing.specs.Sides.{side_of};
ghost use Rattle.std.specs.Prelude.{◌≡◌, ◌<◌};
ghost use Rattle.stepping.specs.Steps.{AllGood, Steps};
ghost use Rattle.tables.specs.Begun.{TablesBegin};
ghost use Rattle.tables.specs.Holding.{model_of, plan_count, view_in};

use entries::node::PlanId;
use extracting::extractor::Extractor;
use merging::merge::merge;
use plan::fault::Fault;
use projecting::fresh::{freshly, is_of};
use routing::owning::Side;
use stored::node::PlanNode;
use tables::tables::Tables;

/// Whether something was taken out for an input.
fn has_pairs(extractor: &Extractor, side: Side) -> bool
    ensures { result ≡ any (λ d. same_side (side_of d.side) (side_of side)) extractor.now.entries }
{
    extractor.entries().iter().any(|entry| is_of(*entry, side))
}

/// The input with what was taken out for it under aliases over it; as it is where that is nothing.
pub(crate) fn build_extraction_projection(
    tables: &mut Tables,
    extractor: &Extractor,
    side: Side,
    input: PlanId,
) -> Result<PlanId, Fault>
    requires input { input.0 < plan_count tables.old }
    requires inside { Inside (view_in tables.old) extractor.now }
    requires good { AllGood (model_of tables.old) }
    requires found { Found tables.old extractor.now side input.0 }
    ensures steps { Steps (model_of tables.old) extractor.now.next (projected tables.old extractor.now side input.0) result (model_of tables.new) }
    ensures begins { TablesBegin tables.old tables.new }
{
    if !has_pairs(extractor, side) {
        return Ok(input);
    }
    match tables.record_of(input).node {
        PlanNode::Projection { input: under, list } => {
            merge(tables, extractor, side, input, under, list)
        }
        _ => freshly(tables, extractor, side, input),
    }
}
