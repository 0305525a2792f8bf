//! Extract of a Sort.
ghost use Rattle.leaf_expressions.specs.Comes.{Comes, extracted};
ghost use Rattle.leaf_expressions.specs.Keys.{keys_with};
ghost use Rattle.plan.specs.Plans.Plan.{sort};
ghost use Rattle.std.specs.Prelude.{◌≡◌, ◌<◌, ◌≤◌, true, length, map};
ghost use Rattle.stepping.specs.Steps.{AllGood};
ghost use Rattle.stored.specs.Stored.{list_in, run_keys};
ghost use Rattle.tables.specs.Begun.{TablesBegin};
ghost use Rattle.tables.specs.Holding.{model_of, plan_count, tree_in, view_in};

use crate::over::rebuilt_over;
use crate::shape::Shape;
use entries::node::{ExprId, PlanId, Run};
use extracting::extractor::Extractor;
use extracting::inputs::Inputs;
use extracting::walking::routing_extract_all;
use numbering::next::next_number;
use plan::code::Direction;
use plan::fault::Fault;
use routing::marked::has_extractable_expr;
use stored::node::SortKey;
use swapping::copying::copied;
use table::table::Table;
use tables::tables::Tables;

/// What the keys sort by.
fn sorted_by(keys: &[SortKey]) -> Table<ExprId, 16>
    requires { length keys.now ≤ 16 }
    ensures { result ≡ map (λ k. k.by) keys.now }
{
    let mut by = Table::new(ExprId(0));
    by.push_each(keys, |key| key.by);
    by
}

/// The keys, each by its new expression and in its own direction.
fn keys_with(keys: &[SortKey], by: &[ExprId]) -> Table<SortKey, 16>
    requires few { length keys.now ≤ 16 }
    requires same { length by.now ≡ length keys.now }
    ensures { result ≡ keys_with keys.now by.now }
{
    let mut out = Table::new(SortKey {
        by: ExprId(0),
        direction: Direction::AscendingNullsFirst,
    });
    for (key, e) in keys.iter().zip(by) {
        out.push(SortKey {
            by: *e,
            direction: key.direction,
        });
    }
    out
}

/// What is Marked is taken out of the keys.
pub(crate) fn extract_sort(
    tables: &mut Tables,
    p: PlanId,
    input: PlanId,
    keys: Run,
) -> Result<Option<PlanId>, Fault>
    requires node { p.0 < plan_count tables.old }
    requires input { input.0 < plan_count tables.old }
    requires keys { list_in (view_in tables.old) keys ≡ true }
    requires few { keys.count ≤ 16 }
    requires tree { tree_in tables.old p.0 ≡ sort (run_keys (view_in tables.old) keys) (tree_in tables.old input.0) }
    requires good { AllGood (model_of tables.old) }
    ensures comes { Comes (model_of tables.old) (extracted tables.old p.0) result (model_of tables.new) }
    ensures begins { TablesBegin tables.old tables.new }
{
    let given: Table<SortKey, 16> = copied(tables.terms().entries(keys));
    let by = sorted_by(given.as_slice());
    if !has_extractable_expr(tables.terms(), by.as_slice()) {
        return Ok(None);
    }
    let mut extractor = Extractor::starting_at(next_number(tables));
    let mut made = Table::new(ExprId(0));
    routing_extract_all(
        tables,
        Inputs::One(input),
        by.as_slice(),
        &mut extractor,
        &mut made,
    )?;
    if !extractor.is_new() {
        return Ok(None);
    }
    let keys = keys_with(given.as_slice(), made.as_slice());
    let shape = Shape::Sort {
        keys: keys.as_slice(),
    };
    let new = rebuilt_over(tables, p, input, &extractor, shape)?;
    Ok(Some(new))
}
