//! The calls that make an Aggregate, a Join, a Union or a Sort; each has the form of those in `nodes`.
ghost use Rattle.std.specs.Prelude.{◌≡◌, ◌+◌, ◌<◌, ◌≤◌, true, not, ◌&&◌, map, length, is_ok, is_some, IfOk, ◌==◌, nat_le, nat_lt};
ghost use Rattle.tables.specs.Answering.{answered_plan};
ghost use Rattle.tables.specs.Holding.{fields_at, model_of, plan_count, trees_in, view_in};
ghost use Rattle.building.specs.Keys.{key_pairs, sort_key};
ghost use Rattle.stored.specs.Making.{input_numbers};
ghost use Rattle.plan.specs.Calls.Call.{make_aggregate, make_join, make_sort, make_union};
ghost use Rattle.plan.specs.Calls.{Answers, all_below, below, between, equal_widths};
ghost use Rattle.plan.specs.Codes.{direction_of};
ghost use Rattle.plan.specs.Fields.{any, every};
ghost use Rattle.plan.specs.Functions.{is_total};
ghost use Rattle.plan.specs.Model.{exprs_in, plans_in};
ghost use Rattle.terms.specs.Views.{numbers_of};

use crate::nodes::is_count;
use asking::making::make;
use entries::node::{ExprId, PlanId};
use plan::code::{Direction, JoinKind, UnknownCode};
use plan::fault::{Fault, Question, ask};
use stored::node::{Key, NewNode, SortKey};
use table::table::Table;
use tables::tables::Tables;

// Free functions, as in `nodes`. That all of a slice of numbers are there is a clause, as for one number.

/// Whether every one of some expressions is a total.
fn all_total(tables: &Tables, ids: &[ExprId]) -> bool
    requires { all_below (length (view_in tables.now).trees) (numbers_of ids.now) ≡ true }
    ensures { result ≡ every (is_total (view_in tables.now).functions) (exprs_in (view_in tables.now).trees (numbers_of ids.now)) }
{
    ids.iter().all(|id| tables.terms().is_total(*id))
}

/// Whether there are at most 16 groups and at most 16 totals, and at least one together.
fn are_few(groups: usize, totals: usize) -> bool
    ensures { result ≡ ((nat_le groups 16 && nat_le totals 16) && nat_lt 0 (groups + totals)) }
{
    groups <= 16 && totals <= 16 && groups + totals > 0
}

/// Whether a node and two lists of expressions stand in the book.
fn has_lists(tables: &Tables, input: PlanId, groups: &[ExprId], totals: &[ExprId]) -> bool
    ensures { result ≡ (below (plan_count tables.now) input.0 && (all_below (length (view_in tables.now).trees) (numbers_of groups.now) && all_below (length (view_in tables.now).trees) (numbers_of totals.now))) }
{
    tables.has(input) && (tables.terms().has_all(groups) && tables.terms().has_all(totals))
}

/// Whether no group is a total, and every total is one.
fn are_placed(tables: &Tables, groups: &[ExprId], totals: &[ExprId]) -> bool
    requires groups { all_below (length (view_in tables.now).trees) (numbers_of groups.now) ≡ true }
    requires totals { all_below (length (view_in tables.now).trees) (numbers_of totals.now) ≡ true }
    ensures { result ≡ (not (any (is_total (view_in tables.now).functions) (exprs_in (view_in tables.now).trees (numbers_of groups.now))) && every (is_total (view_in tables.now).functions) (exprs_in (view_in tables.now).trees (numbers_of totals.now))) }
{
    !tables.terms().any_total(groups) && all_total(tables, totals)
}

/// An Aggregate: at most 16 groups and at most 16 totals, and at least one together.
pub fn aggregate<'x>(
    tables: &mut Tables,
    input: PlanId,
    groups: &'x [ExprId],
    totals: &'x [ExprId],
) -> Result<PlanId, Fault>
    ensures { Answers (model_of tables.old) (make_aggregate input.0 (numbers_of groups.now) (numbers_of totals.now)) (answered_plan result) (model_of tables.new) }
{
    ask(has_lists(tables, input, groups, totals), Question::Present)?;
    ask(are_few(groups.len(), totals.len()), Question::Bounded)?;
    ask(are_placed(tables, groups, totals), Question::Placed)?;
    make(
        tables,
        NewNode::Aggregate {
            input,
            groups,
            totals,
        },
    )
}

/// Whether two nodes and some expressions stand in the book.
fn has_sides(tables: &Tables, left: PlanId, right: PlanId, on: &[ExprId]) -> bool
    ensures { result ≡ ((below (plan_count tables.now) left.0 && below (plan_count tables.now) right.0) && all_below (length (view_in tables.now).trees) (numbers_of on.now)) }
{
    (tables.has(left) && tables.has(right)) && tables.terms().has_all(on)
}

/// A Join by the kind of this number, on at most 16 conditions.
// A number, since outside a book codes and refusals are known by number.
pub fn join(
    tables: &mut Tables,
    kind: u8,
    left: PlanId,
    right: PlanId,
    on: &[ExprId],
) -> Result<PlanId, Fault>
    ensures { Answers (model_of tables.old) (make_join kind left.0 right.0 (numbers_of on.now)) (answered_plan result) (model_of tables.new) }
{
    ask(has_sides(tables, left, right, on), Question::Present)?;
    let kind = JoinKind::try_from(kind)?;
    ask(on.len() <= 16, Question::Bounded)?;
    ask(!tables.terms().any_total(on), Question::Placed)?;
    make(
        tables,
        NewNode::Join {
            kind,
            left,
            right,
            on,
        },
    )
}

/// Whether some nodes stand in the book.
fn has_inputs(tables: &Tables, inputs: &[PlanId]) -> bool
    ensures { result ≡ all_below (plan_count tables.now) (input_numbers inputs.now) }
{
    inputs.iter().all(|p| tables.has(*p))
}

/// Whether two nodes have as many fields.
fn same_width(tables: &Tables, a: PlanId, b: PlanId) -> bool
    requires first { a.0 < plan_count tables.now }
    requires second { b.0 < plan_count tables.now }
    ensures { result ≡ (length (fields_at tables.now a.0) == length (fields_at tables.now b.0)) }
{
    tables.fields_of(a).len() == tables.fields_of(b).len()
}

/// Whether some nodes have as many fields as the first.
fn same_widths(tables: &Tables, inputs: &[PlanId]) -> bool
    requires { all_below (plan_count tables.now) (input_numbers inputs.now) ≡ true }
    ensures { result ≡ equal_widths (view_in tables.now).functions (plans_in (trees_in tables.now) (input_numbers inputs.now)) }
{
    inputs.iter().all(|p| same_width(tables, *p, inputs[0]))
}

/// Whether there are 1 to 8 nodes, with as many fields each.
fn are_alike(tables: &Tables, inputs: &[PlanId]) -> bool
    requires { all_below (plan_count tables.now) (input_numbers inputs.now) ≡ true }
    ensures { result ≡ (between 1 8 (length (input_numbers inputs.now)) && equal_widths (view_in tables.now).functions (plans_in (trees_in tables.now) (input_numbers inputs.now))) }
{
    is_count(1, 8, inputs.len()) && same_widths(tables, inputs)
}

/// A Union of 1 to 8 inputs of the same width.
pub fn union(tables: &mut Tables, inputs: &[PlanId]) -> Result<PlanId, Fault>
    ensures { Answers (model_of tables.old) (make_union (input_numbers inputs.now)) (answered_plan result) (model_of tables.new) }
{
    ask(has_inputs(tables, inputs), Question::Present)?;
    ask(are_alike(tables, inputs), Question::Bounded)?;
    make(tables, NewNode::Union { inputs })
}

/// The keys with their directions, if each has one.
fn sort_keys(keys: &[Key]) -> Result<Table<SortKey, 16>, UnknownCode>
    requires { length keys.now ≤ 16 }
    ensures known { IfOk result (λ table. table ≡ map sort_key keys.now) }
    ensures all { is_ok result ≡ every (λ k. is_some (direction_of k.1)) (key_pairs keys.now) }
{
    let mut out = Table::new(SortKey {
        by: ExprId(0),
        direction: Direction::AscendingNullsFirst,
    });
    // A loop: in `try_for_each` a closure would push to the same table with the same `?`, and answer Ok besides.
    for key in keys {
        out.push(SortKey::try_from(*key)?);
    }
    Ok(out)
}

/// Whether the expressions of some keys stand in the book.
fn has_keys(tables: &Tables, keys: &[Key]) -> bool
    ensures { result ≡ all_below (length (view_in tables.now).trees) (map (λ k. k.0) (key_pairs keys.now)) }
{
    keys.iter().all(|key| tables.terms().has(key.by))
}

/// Whether a node and the expressions of some keys stand in the book.
fn has_sorted(tables: &Tables, input: PlanId, keys: &[Key]) -> bool
    ensures { result ≡ (below (plan_count tables.now) input.0 && all_below (length (view_in tables.now).trees) (map (λ k. k.0) (key_pairs keys.now))) }
{
    tables.has(input) && has_keys(tables, keys)
}

/// Whether one of some keys is a total.
fn any_key_total(tables: &Tables, keys: &[Key]) -> bool
    requires { all_below (length (view_in tables.now).trees) (map (λ k. k.0) (key_pairs keys.now)) ≡ true }
    ensures { result ≡ any (is_total (view_in tables.now).functions) (exprs_in (view_in tables.now).trees (map (λ k. k.0) (key_pairs keys.now))) }
{
    keys.iter().any(|key| tables.terms().is_total(key.by))
}

/// A Sort by 1 to 16 keys.
pub fn sort(tables: &mut Tables, input: PlanId, keys: &[Key]) -> Result<PlanId, Fault>
    ensures { Answers (model_of tables.old) (make_sort input.0 (key_pairs keys.now)) (answered_plan result) (model_of tables.new) }
{
    ask(has_sorted(tables, input, keys), Question::Present)?;
    ask(is_count(1, 16, keys.len()), Question::Bounded)?;
    let given = sort_keys(keys)?;
    ask(!any_key_total(tables, keys), Question::Placed)?;
    make(
        tables,
        NewNode::Sort {
            input,
            keys: given.as_slice(),
        },
    )
}
