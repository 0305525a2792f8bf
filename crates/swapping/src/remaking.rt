//! A node made anew on another input: its lists and its name are copied, and lent to the new node.
ghost use Rattle.std.specs.Prelude.{◌≡◌, ◌<◌, true, not, [], ◌∷◌, length, nat_le, slice_set};
ghost use Rattle.plan.specs.Calls.{all_below, between, union_of};
ghost use Rattle.plan.specs.Fields.{any};
ghost use Rattle.plan.specs.Functions.{is_total};
ghost use Rattle.plan.specs.Model.{inputs_at, plans_in};
ghost use Rattle.plan.specs.Names.{good_name};
ghost use Rattle.plan.specs.Plans.Plan.{aggregate, join, projection, sort, subquery_alias};
ghost use Rattle.plan.specs.Swapping.{swap_tree};
ghost use Rattle.tables.specs.Holding.{model_of, plan_count, tree_in, trees_in, view_in};
ghost use Rattle.swapping.specs.Remaking.{TreeMade};
ghost use Rattle.stored.specs.Stored.{list_in, run_exprs, run_in, run_keys, run_numbers};
ghost use Rattle.names.specs.Spans.{span_in, word};

use crate::copying::{copied, copy_name};
use asking::making::make;
use entries::node::{ExprId, PlanId, Span};
use plan::code::JoinKind;
use plan::fault::{Fault, Question};
use stored::node::{NewNode, PlanNode, Run, SortKey};
use table::table::Table;
use tables::tables::Tables;

// One function for each kind that has lists or a name: they copy different lists and promise different trees.

fn remake_projection(tables: &mut Tables, input: PlanId, list: Run) -> Result<PlanId, Fault>
    requires input { input.0 < plan_count tables.old }
    requires list { list_in (view_in tables.old) list ≡ true }
    requires few { nat_le list.count 64 ≡ true }
    requires placed { not (any (is_total (view_in tables.old).functions) (run_exprs (view_in tables.old) list)) ≡ true }
    ensures { TreeMade (model_of tables.old) (projection (run_exprs (view_in tables.old) list) (tree_in tables.old input.0)) (input.0 ∷ []) result (model_of tables.new) }
{
    let own: Table<ExprId, 64> = copied(tables.terms().entries(list));
    make(
        tables,
        NewNode::Projection {
            input,
            list: own.as_slice(),
        },
    )
}

fn remake_sort(tables: &mut Tables, input: PlanId, keys: Run) -> Result<PlanId, Fault>
    requires input { input.0 < plan_count tables.old }
    requires list { list_in (view_in tables.old) keys ≡ true }
    requires few { nat_le keys.count 16 ≡ true }
    ensures { TreeMade (model_of tables.old) (sort (run_keys (view_in tables.old) keys) (tree_in tables.old input.0)) (input.0 ∷ []) result (model_of tables.new) }
{
    let own: Table<SortKey, 16> = copied(tables.terms().entries(keys));
    make(
        tables,
        NewNode::Sort {
            input,
            keys: own.as_slice(),
        },
    )
}

fn remake_aggregate(
    tables: &mut Tables,
    input: PlanId,
    groups: Run,
    totals: Run,
) -> Result<PlanId, Fault>
    requires input { input.0 < plan_count tables.old }
    requires groups { list_in (view_in tables.old) groups ≡ true }
    requires totals { list_in (view_in tables.old) totals ≡ true }
    requires few { (nat_le groups.count 16 ≡ true) × (nat_le totals.count 16 ≡ true) }
    ensures { TreeMade (model_of tables.old) (aggregate (run_exprs (view_in tables.old) groups) (run_exprs (view_in tables.old) totals) (tree_in tables.old input.0)) (input.0 ∷ []) result (model_of tables.new) }
{
    let by: Table<ExprId, 16> = copied(tables.terms().entries(groups));
    let of: Table<ExprId, 16> = copied(tables.terms().entries(totals));
    make(
        tables,
        NewNode::Aggregate {
            input,
            groups: by.as_slice(),
            totals: of.as_slice(),
        },
    )
}

// The kind and both sides come as the node has them: a struct of the three would be made at each call.
fn remake_join(
    tables: &mut Tables,
    kind: JoinKind,
    left: PlanId,
    right: PlanId,
    on: Run,
) -> Result<PlanId, Fault>
    requires left { left.0 < plan_count tables.old }
    requires right { right.0 < plan_count tables.old }
    requires list { list_in (view_in tables.old) on ≡ true }
    requires few { nat_le on.count 16 ≡ true }
    ensures { TreeMade (model_of tables.old) (join kind (run_exprs (view_in tables.old) on) (tree_in tables.old left.0) (tree_in tables.old right.0)) (left.0 ∷ right.0 ∷ []) result (model_of tables.new) }
{
    let own: Table<ExprId, 16> = copied(tables.terms().entries(on));
    make(
        tables,
        NewNode::Join {
            kind,
            left,
            right,
            on: own.as_slice(),
        },
    )
}

fn remake_alias(tables: &mut Tables, input: PlanId, name: Span) -> Result<PlanId, Fault>
    requires input { input.0 < plan_count tables.old }
    requires inside { span_in (view_in tables.old).bytes name ≡ true }
    requires good { good_name (word (view_in tables.old).bytes name) ≡ true }
    ensures { TreeMade (model_of tables.old) (subquery_alias (word (view_in tables.old).bytes name) (tree_in tables.old input.0)) (input.0 ∷ []) result (model_of tables.new) }
{
    let own = copy_name(tables.terms().word(name));
    make(
        tables,
        NewNode::SubqueryAlias {
            input,
            name: own.as_slice(),
        },
    )
}

fn remake_union(
    tables: &mut Tables,
    inputs: Run,
    position: u32,
    input: PlanId,
) -> Result<PlanId, Fault>
    requires run { run_in (view_in tables.old).entries inputs ≡ true }
    requires present { all_below (plan_count tables.old) (run_numbers (view_in tables.old).entries inputs) ≡ true }
    requires few { between 1 8 inputs.count ≡ true }
    requires position { position < inputs.count }
    requires input { input.0 < plan_count tables.old }
    ensures { TreeMade (model_of tables.old) (union_of (plans_in (trees_in tables.old) (slice_set (run_numbers (view_in tables.old).entries inputs) position input.0))) (slice_set (run_numbers (view_in tables.old).entries inputs) position input.0) result (model_of tables.new) }
{
    let mut own: Table<PlanId, 8> = copied(tables.terms().entries(inputs));
    own.set(position as usize, input);
    make(
        tables,
        NewNode::Union {
            inputs: own.as_slice(),
        },
    )
}

/// A node like `p`, with `input` in place of its input at a position; a Table has none.
pub(crate) fn remake(
    tables: &mut Tables,
    p: PlanId,
    position: u32,
    input: PlanId,
) -> Result<PlanId, Fault>
    requires node { p.0 < plan_count tables.old }
    requires position { position < length (inputs_at (model_of tables.old) p.0) }
    requires input { input.0 < plan_count tables.old }
    ensures { TreeMade (model_of tables.old) (swap_tree (model_of tables.old) p.0 position input.0) (slice_set (inputs_at (model_of tables.old) p.0) position input.0) result (model_of tables.new) }
{
    // One arm for each kind: the match says what the kinds mean.
    match tables.record_of(p).node {
        // Excluded by the contract.
        PlanNode::Table { .. } => Err(Question::Bounded.refusal()),
        PlanNode::Projection { list, .. } => remake_projection(tables, input, list),
        PlanNode::Filter { predicate, .. } => make(tables, NewNode::Filter { input, predicate }),
        PlanNode::Sort { keys, .. } => remake_sort(tables, input, keys),
        PlanNode::Limit { skip, count, .. } => make(tables, NewNode::Limit { input, skip, count }),
        PlanNode::Aggregate { groups, totals, .. } => {
            remake_aggregate(tables, input, groups, totals)
        }
        PlanNode::Join {
            kind,
            left,
            right,
            on,
        } => {
            if position == 0 {
                remake_join(tables, kind, input, right, on)
            } else {
                remake_join(tables, kind, left, input, on)
            }
        }
        PlanNode::SubqueryAlias { name, .. } => remake_alias(tables, input, name),
        PlanNode::Union { inputs } => remake_union(tables, inputs, position, input),
    }
}
