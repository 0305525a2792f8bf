//! Extract of a Join.
ghost use Rattle.extracting.specs.Extractors.{Inside};
ghost use Rattle.leaf_expressions.specs.Comes.{Comes, extracted};
ghost use Rattle.leaf_expressions.specs.Found.{Found, Renamed, Wider, over_two};
ghost use Rattle.plan.specs.Calls.{all_below};
ghost use Rattle.plan.specs.Model.{exprs_in};
ghost use Rattle.plan.specs.Plans.Plan.{join};
ghost use Rattle.plan.specs.Plans.{Plan, fields_of};
ghost use Rattle.routing.specs.declared.owning.Side.TheVariants.{First as FirstSide, Second as SecondSide};
ghost use Rattle.std.specs.Prelude.{◌≡◌, ◌+◌, ◌<◌, ◌≤◌, true, length, IfOk};
ghost use Rattle.stepping.specs.Steps.{AllGood, Steps};
ghost use Rattle.stored.specs.Stored.{list_in, run_exprs};
ghost use Rattle.tables.specs.Begun.{TablesBegin};
ghost use Rattle.tables.specs.Holding.{fields_at, model_of, plan_count, tree_in, view_in};
ghost use Rattle.terms.specs.Views.{numbers_of};

use crate::extraction::build_extraction_projection;
use entries::node::{ExprId, PlanId, Run};
use extracting::extractor::Extractor;
use extracting::inputs::Inputs;
use extracting::walking::routing_extract_all;
use numbering::next::next_number;
use plan::code::JoinKind;
use plan::fault::Fault;
use recovering::rebuilding::rebuilt;
use routing::marked::has_extractable_expr;
use routing::owning::Side;
use stored::node::NewNode;
use swapping::copying::copied;
use table::table::Table;
use tables::tables::Tables;

/// The Join `p` rebuilt on other conditions, over its inputs with what was taken out for each.
// The kind and both sides come as the node has them: a struct of the three would be made at this one call.
fn rebuilt_over_two(
    tables: &mut Tables,
    p: PlanId,
    kind: JoinKind,
    left: PlanId,
    right: PlanId,
    extractor: &Extractor,
    on: &[ExprId],
) -> Result<PlanId, Fault>
    requires node { p.0 < plan_count tables.old }
    requires left { left.0 < plan_count tables.old }
    requires right { right.0 < plan_count tables.old }
    requires inside { Inside (view_in tables.old) extractor.now }
    requires good { AllGood (model_of tables.old) }
    requires found_left { Found tables.old extractor.now FirstSide left.0 }
    requires found_right { Found tables.old extractor.now SecondSide right.0 }
    requires there { all_below (length (view_in tables.old).trees) (numbers_of on.now) ≡ true }
    requires short { length on.now ≤ 16 }
    requires renamed { (x y : Plan) → Wider (fields_of (view_in tables.old).functions x) (fields_at tables.old left.0) → Wider (fields_of (view_in tables.old).functions y) (fields_at tables.old right.0) → Renamed (fields_at tables.old p.0) (fields_of (view_in tables.old).functions (join kind (exprs_in (view_in tables.old).trees (numbers_of on.now)) x y)) }
    ensures steps { Steps (model_of tables.old) extractor.now.next (over_two tables.old extractor.now left.0 right.0 (fields_at tables.old p.0) (join kind (exprs_in (view_in tables.old).trees (numbers_of on.now)))) result (model_of tables.new) }
    ensures last { IfOk result (λ r. (plan_count tables.old ≤ r.0) × (r.0 + 1 ≡ plan_count tables.new)) }
    ensures begins { TablesBegin tables.old tables.new }
{
    let over = build_extraction_projection(tables, extractor, Side::First, left)?;
    let beside = build_extraction_projection(tables, extractor, Side::Second, right)?;
    let node = NewNode::Join {
        kind,
        left: over,
        right: beside,
        on,
    };
    rebuilt(tables, p, node)
}

/// What is Marked and of one input is taken out of the conditions.
// The kind and both sides come as the node has them, as in `rebuilt_over_two`.
pub(crate) fn extract_join(
    tables: &mut Tables,
    p: PlanId,
    kind: JoinKind,
    left: PlanId,
    right: PlanId,
    on: Run,
) -> Result<Option<PlanId>, Fault>
    requires node { p.0 < plan_count tables.old }
    requires left { left.0 < plan_count tables.old }
    requires right { right.0 < plan_count tables.old }
    requires list { list_in (view_in tables.old) on ≡ true }
    requires few { on.count ≤ 16 }
    requires tree { tree_in tables.old p.0 ≡ join kind (run_exprs (view_in tables.old) on) (tree_in tables.old left.0) (tree_in tables.old right.0) }
    requires good { AllGood (model_of tables.old) }
    ensures comes { Comes (model_of tables.old) (extracted tables.old p.0) result (model_of tables.new) }
    ensures begins { TablesBegin tables.old tables.new }
{
    let given: Table<ExprId, 16> = copied(tables.terms().entries(on));
    if !has_extractable_expr(tables.terms(), given.as_slice()) {
        return Ok(None);
    }
    let mut extractor = Extractor::starting_at(next_number(tables));
    let mut made = Table::new(ExprId(0));
    let inputs = Inputs::Two(left, right);
    routing_extract_all(tables, inputs, given.as_slice(), &mut extractor, &mut made)?;
    if !extractor.is_new() {
        return Ok(None);
    }
    let new = rebuilt_over_two(tables, p, kind, left, right, &extractor, made.as_slice())?;
    Ok(Some(new))
}
