//! How large a node is once it is made.
ghost use Rattle.std.specs.Prelude.{◌≡◌, ◌<◌, ◌≤◌, true, length, sum_by};
ghost use Rattle.tables.specs.Holding.{fields_at, plan_count, trees_in, view_in};
ghost use Rattle.asking.specs.Asked.{functions_for, new_fields, new_tree};
ghost use Rattle.stored.specs.Making.{input_numbers};
ghost use Rattle.plan.specs.Calls.{all_below, rendered_bytes, union_of};
ghost use Rattle.plan.specs.Model.{plans_in};
ghost use Rattle.plan.specs.Plans.{fields_of, further_inputs, plan_size_of, plan_sizes_of, shown};
ghost use Rattle.plan.specs.Questions.{shown_expressions};

use crate::asked::Asked;
use draft::reading::rendered_bytes;
use entries::node::PlanId;
use names::parts::count_names;
use plan::code::JoinKind;
use stored::node::NewNode;
use tables::tables::Tables;

/// How many fields a node has.
fn width_of(tables: &Tables, p: PlanId) -> usize
    requires { p.0 < plan_count tables.now }
    ensures value { result ≡ length (fields_at tables.now p.0) }
    ensures bound { result ≤ 64 }
{
    tables.fields_of(p).len()
}

/// How many fields a Join has.
// The kind and both sides come as the node has them. Methods of `JoinKind` for its sides would be two contracts more, and
// serve only here and in `draft_join`.
fn join_width(tables: &Tables, kind: JoinKind, left: PlanId, right: PlanId) -> usize
    requires left { left.0 < plan_count tables.now }
    requires right { right.0 < plan_count tables.now }
    ensures value { result ≡ length (shown kind (fields_at tables.now left.0) (fields_at tables.now right.0)) }
    ensures bound { result ≤ 128 }
{
    match kind {
        JoinKind::LeftSemi | JoinKind::LeftAnti => width_of(tables, left),
        JoinKind::RightSemi | JoinKind::RightAnti => width_of(tables, right),
        _ => width_of(tables, left) + width_of(tables, right),
    }
}

/// How many fields a Union has: as many as its first input.
// A slice of numbers from a caller: that all are there is a clause, as for one number.
fn union_width(tables: &Tables, inputs: &[PlanId]) -> usize
    requires some { 1 ≤ length inputs.now }
    requires present { all_below (plan_count tables.now) (input_numbers inputs.now) ≡ true }
    ensures value { result ≡ length (fields_of (view_in tables.now).functions (union_of (plans_in (trees_in tables.now) (input_numbers inputs.now)))) }
    ensures bound { result ≤ 64 }
{
    width_of(tables, inputs[0])
}

/// How many nodes the trees of at most eight nodes have together.
// A slice of numbers from a caller: that all are there is a clause, as for one number.
fn sizes_of(tables: &Tables, inputs: &[PlanId]) -> u32
    requires few { length inputs.now ≤ 8 }
    requires present { all_below (plan_count tables.now) (input_numbers inputs.now) ≡ true }
    ensures value { result ≡ plan_sizes_of (further_inputs (plans_in (trees_in tables.now) (input_numbers inputs.now))) }
    ensures bound { result ≤ 512 }
{
    inputs.iter().map(|p| tables.size_of(*p)).sum()
}

impl Asked<'_, '_> {
    /// How many fields a node has once it is made.
    pub(crate) fn width(self) -> usize
        ensures value { result ≡ length (new_fields self.entry) }
        ensures bound { result ≤ 128 }
    {
        // One arm for each way of counting fields: the match says what the kinds mean.
        match self.node {
            NewNode::Table { names, .. } => count_names(names),
            NewNode::Projection { list, .. } => list.len(),
            NewNode::Aggregate { groups, totals, .. } => groups.len() + totals.len(),
            NewNode::Join {
                kind,
                left,
                right,
                ..
            } => join_width(self.tables, kind, left, right),
            NewNode::Filter { input, .. }
            | NewNode::Sort { input, .. }
            | NewNode::Limit { input, .. }
            | NewNode::SubqueryAlias { input, .. } => width_of(self.tables, input),
            NewNode::Union { inputs } => union_width(self.tables, inputs),
        }
    }

    /// How many nodes the tree of a node has once it is made.
    pub(crate) fn tree_size(self) -> u32
        ensures { result ≡ plan_size_of (new_tree self.entry) }
    {
        match self.node {
            NewNode::Table { .. } => 1,
            NewNode::Join { left, right, .. } => {
                self.tables.size_of(left) + self.tables.size_of(right) + 1
            }
            NewNode::Projection { input, .. }
            | NewNode::Filter { input, .. }
            | NewNode::Sort { input, .. }
            | NewNode::Limit { input, .. }
            | NewNode::Aggregate { input, .. }
            | NewNode::SubqueryAlias { input, .. } => self.tables.size_of(input) + 1,
            NewNode::Union { inputs } => sizes_of(self.tables, inputs) + 1,
        }
    }

    /// How many bytes the rendered names that a node's fields take have together.
    pub(crate) fn rendered_bytes(self) -> usize
        ensures value { result ≡ sum_by (rendered_bytes (functions_for self.entry)) (shown_expressions (new_tree self.entry)) }
        ensures bound { result ≤ 16744448 }
    {
        match self.node {
            NewNode::Projection { list, .. } => rendered_bytes(self.tables.terms(), list),
            NewNode::Aggregate { groups, totals, .. } => {
                rendered_bytes(self.tables.terms(), groups)
                    + rendered_bytes(self.tables.terms(), totals)
            }
            _ => 0,
        }
    }
}
