//! The inputs of a node with what was taken out of it, and the node rebuilt over them.
ghost use Rattle.extracting.specs.Extractors.{Inside};
ghost use Rattle.leaf_expressions.specs.Found.{Found, Renamed, Wider, over_one};
ghost use Rattle.leaf_expressions.specs.Shapes.{short, there_in, totals_in, tree_with};
ghost use Rattle.plan.specs.Plans.{Plan, fields_of};
ghost use Rattle.routing.specs.declared.owning.Side.TheVariants.{First as FirstSide};
ghost use Rattle.std.specs.Prelude.{◌≡◌, ◌+◌, ◌<◌, ◌≤◌, true, IfOk};
ghost use Rattle.stepping.specs.Steps.{AllGood, Steps};
ghost use Rattle.tables.specs.Begun.{TablesBegin};
ghost use Rattle.tables.specs.Holding.{fields_at, model_of, plan_count, view_in};

use crate::extraction::build_extraction_projection;
use crate::shape::Shape;
use entries::node::PlanId;
use extracting::extractor::Extractor;
use plan::fault::Fault;
use recovering::rebuilding::rebuilt;
use routing::owning::Side;
use tables::tables::Tables;

/// The node `p` rebuilt in another shape, over its input with what was taken out.
pub(crate) fn rebuilt_over(
    tables: &mut Tables,
    p: PlanId,
    input: PlanId,
    extractor: &Extractor,
    shape: Shape<'_>,
) -> Result<PlanId, Fault>
    requires node { p.0 < plan_count tables.old }
    requires input { input.0 < plan_count tables.old }
    requires inside { Inside (view_in tables.old) extractor.now }
    requires good { AllGood (model_of tables.old) }
    requires found { Found tables.old extractor.now FirstSide input.0 }
    requires there { there_in (view_in tables.old) shape ≡ true }
    requires short { short shape ≡ true }
    requires totals { totals_in (view_in tables.old) shape ≡ true }
    requires renamed { (R : Plan) → Wider (fields_of (view_in tables.old).functions R) (fields_at tables.old input.0) → Renamed (fields_at tables.old p.0) (fields_of (view_in tables.old).functions (tree_with (view_in tables.old) shape R)) }
    ensures steps { Steps (model_of tables.old) extractor.now.next (over_one tables.old extractor.now input.0 (fields_at tables.old p.0) (tree_with (view_in tables.old) shape.entry)) result (model_of tables.new) }
    ensures last { IfOk result (λ r. (plan_count tables.old ≤ r.0) × (r.0 + 1 ≡ plan_count tables.new)) }
    ensures begins { TablesBegin tables.old tables.new }
{
    let over = build_extraction_projection(tables, extractor, Side::First, input)?;
    rebuilt(tables, p, shape.over(over))
}
