//! Extract of an Aggregate.
ghost use Rattle.leaf_expressions.specs.Comes.{Comes, extracted};
ghost use Rattle.leaf_expressions.specs.Walks.{BothAnswered, both_in};
ghost use Rattle.plan.specs.Calls.{all_below};
ghost use Rattle.plan.specs.Model.{exprs_in};
ghost use Rattle.plan.specs.Plans.Plan.{aggregate};
ghost use Rattle.rewriting.specs.Routing.{has_extractable_expr};
ghost use Rattle.std.specs.Prelude.{◌≡◌, ◌<◌, ◌≤◌, true, ◌++◌, length};
ghost use Rattle.stepping.specs.Steps.{AllGood};
ghost use Rattle.stored.specs.Stored.{list_in, run_exprs};
ghost use Rattle.tables.specs.Begun.{TablesBegin};
ghost use Rattle.tables.specs.Holding.{model_of, plan_count, tree_in, view_in};
ghost use Rattle.terms.specs.Views.{AllPresent, numbers_of, view_of};

use crate::over::rebuilt_over;
use crate::shape::Shape;
use entries::node::{ExprId, PlanId, Run};
use extracting::extractor::Extractor;
use extracting::inputs::Inputs;
use extracting::walking::routing_extract_all;
use numbering::next::next_number;
use plan::fault::Fault;
use routing::marked::has_extractable_expr;
use swapping::copying::copied;
use table::table::Table;
use tables::tables::Tables;
use terms::terms::Terms;

/// Whether something Marked stands in one of two lists.
fn has_extractable(terms: &Terms, groups: &[ExprId], totals: &[ExprId]) -> bool
    requires groups { AllPresent terms.now groups.now }
    requires totals { AllPresent terms.now totals.now }
    ensures { result ≡ has_extractable_expr (view_of terms.now).functions (exprs_in (view_of terms.now).trees (numbers_of groups.now) ++ exprs_in (view_of terms.now).trees (numbers_of totals.now)) }
{
    has_extractable_expr(terms, groups) || has_extractable_expr(terms, totals)
}

/// What the walks leave of the groups and of the totals, and what they found.
#[derive(Drop)]
struct Routed {
    extractor: Extractor,
    groups: Table<ExprId, 16>,
    totals: Table<ExprId, 16>,
}

/// The walk through the groups, and then through the totals.
fn route(
    tables: &mut Tables,
    input: PlanId,
    groups: &[ExprId],
    totals: &[ExprId],
) -> Result<Routed, Fault>
    requires input { input.0 < plan_count tables.old }
    requires groups { all_below (length (view_in tables.old).trees) (numbers_of groups.now) ≡ true }
    requires totals { all_below (length (view_in tables.old).trees) (numbers_of totals.now) ≡ true }
    requires few { (length groups.now ≤ 16) × (length totals.now ≤ 16) }
    ensures answer { BothAnswered tables.old (both_in tables.old input (exprs_in (view_in tables.old).trees (numbers_of groups.now)) (exprs_in (view_in tables.old).trees (numbers_of totals.now))) result tables.new }
    ensures begins { TablesBegin tables.old tables.new }
{
    let inputs = Inputs::One(input);
    let mut extractor = Extractor::starting_at(next_number(tables));
    let mut by = Table::new(ExprId(0));
    routing_extract_all(tables, inputs, groups, &mut extractor, &mut by)?;
    let mut of = Table::new(ExprId(0));
    routing_extract_all(tables, inputs, totals, &mut extractor, &mut of)?;
    Ok(Routed {
        extractor,
        groups: by,
        totals: of,
    })
}

/// What is Marked is taken out of the groups and of what the totals take.
pub(crate) fn extract_aggregate(
    tables: &mut Tables,
    p: PlanId,
    input: PlanId,
    groups: Run,
    totals: Run,
) -> Result<Option<PlanId>, Fault>
    requires node { p.0 < plan_count tables.old }
    requires input { input.0 < plan_count tables.old }
    requires groups { list_in (view_in tables.old) groups ≡ true }
    requires totals { list_in (view_in tables.old) totals ≡ true }
    requires few { (groups.count ≤ 16) × (totals.count ≤ 16) }
    requires tree { tree_in tables.old p.0 ≡ aggregate (run_exprs (view_in tables.old) groups) (run_exprs (view_in tables.old) totals) (tree_in tables.old input.0) }
    requires good { AllGood (model_of tables.old) }
    ensures comes { Comes (model_of tables.old) (extracted tables.old p.0) result (model_of tables.new) }
    ensures begins { TablesBegin tables.old tables.new }
{
    let by: Table<ExprId, 16> = copied(tables.terms().entries(groups));
    let of: Table<ExprId, 16> = copied(tables.terms().entries(totals));
    if !has_extractable(tables.terms(), by.as_slice(), of.as_slice()) {
        return Ok(None);
    }
    let routed = route(tables, input, by.as_slice(), of.as_slice())?;
    if !routed.extractor.is_new() {
        return Ok(None);
    }
    let shape = Shape::Aggregate {
        groups: routed.groups.as_slice(),
        totals: routed.totals.as_slice(),
    };
    let new = rebuilt_over(tables, p, input, &routed.extractor, shape)?;
    Ok(Some(new))
}
