//! What a node that is to be made is asked.
ghost use Rattle.std.specs.Prelude.{◌≡◌, ◌+◌, ◌<◌, true, ◌&&◌, ◌++◌, map, length, nat_le};
ghost use Rattle.tables.specs.Holding.{fields_at, model_of, plan_count, view_in};
ghost use Rattle.asking.specs.Asked.{functions_for, new_fields, new_tree};
ghost use Rattle.stored.specs.Making.{key_numbers};
ghost use Rattle.tables.specs.Making.{outlay_for};
ghost use Rattle.plan.specs.Calls.{all_below};
ghost use Rattle.plan.specs.Fields.{every, resolved};
ghost use Rattle.plan.specs.Model.{expr_in, exprs_in, fits};
ghost use Rattle.plan.specs.Plans.{plan_size_of};
ghost use Rattle.plan.specs.Questions.{expressions_of, input_fields, limited, short_name, shown_expressions};
ghost use Rattle.entries.specs.Spans.{stored_field, stored_in};
ghost use Rattle.terms.specs.Views.{numbers_of};

use crate::asked::Asked;
use draft::reading::has_short_names;
use entries::node::{ExprId, PlanId, StoredField};
use naming::resolving::resolved;
use stored::node::{NewNode, SortKey};
use table::table::Table;
use tables::tables::Tables;

// Free functions: Tables is a type of another crate, so that they cannot be its methods. Clauses: `Asked` holds for the whole
// node that its inputs and expressions are there; these take parts of it.

/// Whether every reference of some expressions resolves among the fields of one or two inputs.
fn all_resolved(
    tables: &Tables,
    left: &[StoredField],
    right: &[StoredField],
    ids: &[ExprId],
) -> bool
    requires left { every (stored_in (view_in tables.now).bytes) left.now ≡ true }
    requires right { every (stored_in (view_in tables.now).bytes) right.now ≡ true }
    requires present { all_below (length (view_in tables.now).trees) (numbers_of ids.now) ≡ true }
    ensures { result ≡ every (resolved (map (stored_field (view_in tables.now).bytes) left.now ++ map (stored_field (view_in tables.now).bytes) right.now)) (exprs_in (view_in tables.now).trees (numbers_of ids.now)) }
{
    ids.iter()
        .all(|id| resolved(tables.terms(), left, right, *id))
}

/// Whether every reference of an expression resolves over an input.
fn one_resolved(tables: &Tables, input: PlanId, e: ExprId) -> bool
    requires input { input.0 < plan_count tables.now }
    requires present { e.0 < length (view_in tables.now).trees }
    ensures { result ≡ resolved (fields_at tables.now input.0) (expr_in (view_in tables.now).trees e.0) }
{
    resolved(tables.terms(), tables.fields_of(input), &[], e)
}

/// The same of some expressions.
fn list_resolved(tables: &Tables, input: PlanId, ids: &[ExprId]) -> bool
    requires input { input.0 < plan_count tables.now }
    requires present { all_below (length (view_in tables.now).trees) (numbers_of ids.now) ≡ true }
    ensures { result ≡ every (resolved (fields_at tables.now input.0)) (exprs_in (view_in tables.now).trees (numbers_of ids.now)) }
{
    all_resolved(tables, tables.fields_of(input), &[], ids)
}

/// The same of two lists, one after the other.
fn lists_resolved(tables: &Tables, input: PlanId, first: &[ExprId], second: &[ExprId]) -> bool
    requires input { input.0 < plan_count tables.now }
    requires first { all_below (length (view_in tables.now).trees) (numbers_of first.now) ≡ true }
    requires second { all_below (length (view_in tables.now).trees) (numbers_of second.now) ≡ true }
    ensures { result ≡ every (resolved (fields_at tables.now input.0)) (exprs_in (view_in tables.now).trees (numbers_of first.now) ++ exprs_in (view_in tables.now).trees (numbers_of second.now)) }
{
    list_resolved(tables, input, first) && list_resolved(tables, input, second)
}

/// The same of Sort keys.
fn keys_resolved(tables: &Tables, input: PlanId, keys: &[SortKey]) -> bool
    requires input { input.0 < plan_count tables.now }
    requires present { all_below (length (view_in tables.now).trees) (key_numbers keys.now) ≡ true }
    ensures { result ≡ every (resolved (fields_at tables.now input.0)) (exprs_in (view_in tables.now).trees (key_numbers keys.now)) }
{
    keys.iter().all(|key| one_resolved(tables, input, key.by))
}

/// Whether every reference of some conditions resolves over two inputs.
fn conditions_resolved(tables: &Tables, left: PlanId, right: PlanId, ids: &[ExprId]) -> bool
    requires left { left.0 < plan_count tables.now }
    requires right { right.0 < plan_count tables.now }
    requires present { all_below (length (view_in tables.now).trees) (numbers_of ids.now) ≡ true }
    ensures { result ≡ every (resolved (fields_at tables.now left.0 ++ fields_at tables.now right.0)) (exprs_in (view_in tables.now).trees (numbers_of ids.now)) }
{
    all_resolved(tables, tables.fields_of(left), tables.fields_of(right), ids)
}

/// Whether the rendered names of the expressions of two lists are short.
fn both_short(tables: &Tables, first: &[ExprId], second: &[ExprId]) -> bool
    requires first { all_below (length (view_in tables.now).trees) (numbers_of first.now) ≡ true }
    requires second { all_below (length (view_in tables.now).trees) (numbers_of second.now) ≡ true }
    ensures { result ≡ every (short_name (view_in tables.now).functions) (exprs_in (view_in tables.now).trees (numbers_of first.now) ++ exprs_in (view_in tables.now).trees (numbers_of second.now)) }
{
    has_short_names(tables.terms(), first) && has_short_names(tables.terms(), second)
}

impl Asked<'_, '_> {
    /// Question 6: whether every reference of a node resolves among the fields of its inputs.
    pub(crate) fn is_resolved(self) -> bool
        ensures { result ≡ every (resolved (input_fields (functions_for self.entry) (new_tree self.entry))) (expressions_of (new_tree self.entry)) }
    {
        // One arm for each kind that has expressions: the match says what the kinds mean.
        match self.node {
            NewNode::Projection { input, list } => list_resolved(self.tables, input, list),
            NewNode::Filter { input, predicate } => one_resolved(self.tables, input, predicate),
            NewNode::Sort { input, keys } => keys_resolved(self.tables, input, keys),
            NewNode::Aggregate {
                input,
                groups,
                totals,
            } => lists_resolved(self.tables, input, groups, totals),
            NewNode::Join {
                left,
                right,
                on,
                ..
            } => conditions_resolved(self.tables, left, right, on),
            _ => true,
        }
    }

    /// Whether the rendered names that a node's fields take are short.
    fn has_short_names(self) -> bool
        ensures { result ≡ every (short_name (functions_for self.entry)) (shown_expressions (new_tree self.entry)) }
    {
        match self.node {
            NewNode::Projection { list, .. } => has_short_names(self.tables.terms(), list),
            NewNode::Aggregate { groups, totals, .. } => both_short(self.tables, groups, totals),
            _ => true,
        }
    }

    /// Whether a node keeps the limits on fields and on its tree.
    fn is_small(self) -> bool
        ensures { result ≡ (nat_le (length (new_fields self.entry)) 64 && nat_le (plan_size_of (new_tree self.entry)) 64) }
    {
        self.width() <= 64 && self.tree_size() <= 64
    }

    /// Question 8: whether a node keeps these limits and the one on names.
    pub(crate) fn is_limited(self) -> bool
        ensures { result ≡ limited (functions_for self.entry) (new_tree self.entry) }
    {
        self.is_small() && self.has_short_names()
    }

    /// Whether a node's own bytes and its fields' rendered names have room in the text.
    fn has_text_room(self) -> bool
        ensures { result ≡ nat_le (length (view_in self.entry.tables.now).bytes + (outlay_for self.entry.tables.now self.entry.node).bytes) 16384 }
    {
        let room = self.tables.terms().text_room();
        let own = self.node.own_len();
        own <= room && self.rendered_bytes() <= room - own
    }

    /// Question 9: whether a node has room in every table.
    pub(crate) fn has_room(self) -> bool
        ensures { result ≡ fits (model_of self.entry.tables.now).used (outlay_for self.entry.tables.now self.entry.node) }
    {
        self.tables.len() < 128
            && self.node.list_len() <= self.tables.terms().list_room()
            && self.width() <= self.tables.field_room()
            && self.has_text_room()
    }
}
