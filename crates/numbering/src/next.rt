//! The first number that an alias of a book may take.
ghost use Rattle.numbering.specs.Own.{capped, names_in, node_own, own_names, relation_names};
ghost use Rattle.plan.specs.Fields.{every};
ghost use Rattle.plan.specs.Names.{most_number};
ghost use Rattle.rewriting.specs.Generated.{field_names, literal_names, next_number};
ghost use Rattle.std.specs.List.{flat_map};
ghost use Rattle.std.specs.Prelude.{◌≡◌, ◌+◌, ◌<◌, ◌≤◌, true, map};
ghost use Rattle.tables.specs.Holding.{model_of, nodes_of, plan_count, tree_in, view_in};
ghost use Rattle.entries.specs.Spans.{literal_at, literal_in, stored_field, stored_in};
ghost use Rattle.terms.specs.Views.{count, tree_of, view_of};

use entries::node::{ExprId, ExprNode, Literal, PlanId, StoredField};
use names::number_of;
use stored::node::PlanNode;
use tables::tables::Tables;
use terms::terms::Terms;

/// Generated aliases have a number above this one.
const BELOW_FIRST: u32 = 99_999_999;

/// The higher of the numbers of a field's name and of its qualifier.
fn field_number(terms: &Terms, field: StoredField) -> u32
    requires { stored_in (view_of terms.now).bytes field ≡ true }
    ensures { result ≡ capped (field_names (stored_field (view_of terms.now).bytes field)) }
{
    let own = number_of(terms.word(field.name));
    match field.qualifier {
        Some(qualifier) => own.max(number_of(terms.word(qualifier))),
        None => own,
    }
}

/// The number of a text literal; 0 of another literal.
fn literal_number(terms: &Terms, literal: Literal) -> u32
    requires { literal_in (view_of terms.now).bytes literal ≡ true }
    ensures { result ≡ capped (literal_names (literal_at (view_of terms.now).bytes literal)) }
{
    match literal {
        Literal::Text(text) => number_of(terms.word(text)),
        _ => 0,
    }
}

/// The highest number that stands at an expression itself.
fn expr_number(terms: &Terms, e: ExprId) -> u32
    requires { e.0 < count terms.now }
    ensures { result ≡ capped (own_names (tree_of terms.now e.0)) }
{
    match terms.node(e) {
        ExprNode::Constant(literal) => literal_number(terms, literal),
        ExprNode::Reference(field) => field_number(terms, field),
        ExprNode::Alias { field, .. } => field_number(terms, field),
        ExprNode::Call { .. } => 0,
    }
}

/// The highest number in the expressions, each looked at once: the parts of one are others.
fn highest_in_exprs(terms: &Terms) -> u32
    ensures { result ≡ capped (flat_map own_names (view_of terms.now).trees) }
{
    let mut highest: u32 = 0;
    for e in 0..terms.len() {
        highest = highest.max(expr_number(terms, ExprId(e as u32)));
    }
    highest
}

/// The highest number of a field's name.
fn highest_in_fields(terms: &Terms, fields: &[StoredField]) -> u32
    requires { every (stored_in (view_of terms.now).bytes) fields.now ≡ true }
    ensures { result ≡ capped (names_in (map (stored_field (view_of terms.now).bytes) fields.now)) }
{
    let mut highest: u32 = 0;
    for field in fields {
        highest = highest.max(number_of(terms.word(field.name)));
    }
    highest
}

/// The number of a Table's qualifier and of a SubqueryAlias's name; 0 of another node.
fn relation_number(tables: &Tables, p: PlanId) -> u32
    requires { p.0 < plan_count tables.now }
    ensures { result ≡ capped (relation_names (tree_in tables.now p.0)) }
{
    match tables.record_of(p).node {
        PlanNode::Table { qualifier, .. } => number_of(tables.terms().word(qualifier)),
        PlanNode::SubqueryAlias { name, .. } => number_of(tables.terms().word(name)),
        _ => 0,
    }
}

/// The highest number in the nodes' fields and names.
fn highest_in_nodes(tables: &Tables) -> u32
    ensures { result ≡ capped (flat_map (node_own (view_in tables.now).functions) (nodes_of tables.now)) }
{
    let mut highest: u32 = 0;
    for i in 0..tables.len() {
        let p = PlanId(i as u32);
        highest = highest
            .max(highest_in_fields(tables.terms(), tables.fields_of(p)))
            .max(relation_number(tables, p));
    }
    highest
}

/// The first number that an alias may take: nine digits, and above every number in the book.
pub fn next_number(tables: &Tables) -> u32
    ensures value { result ≡ next_number (model_of tables.now) }
    ensures bound { result ≤ most_number + 1 }
{
    let highest = highest_in_exprs(tables.terms()).max(highest_in_nodes(tables));
    highest.max(BELOW_FIRST) + 1
}
