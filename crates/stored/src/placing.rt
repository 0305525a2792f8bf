//! How a new node's names and lists are put into the tables.
ghost use Rattle.std.specs.Prelude.{◌≡◌, ◌+◌, ◌≤◌, true, map, length};
ghost use Rattle.stored.specs.Placing.{PlacedAs, namelessly};
ghost use Rattle.stored.specs.Listing.{ListedAs};
ghost use Rattle.stored.specs.Making.{bounded, bytes_for, entries_for, present_in};
ghost use Rattle.terms.specs.Begun.{TermsBegin};
ghost use Rattle.terms.specs.Views.{view_of};

use crate::node::{NewNode, PlanNode, Run};
use draft::storing::Lent;
use entries::listed::Listed;
use entries::node::{PlanId, Span};
use terms::terms::Terms;

/// A node whose names and lists are in the tables, with the names that are lent to its fields.
// A span of nothing stands for no name, since storing takes the bytes of both and reads none there.
#[derive(Clone, Copy)]
pub struct Placed {
    pub node: PlanNode,
    pub lent: Lent,
}

/// Puts a list into the list table.
fn put<T: Listed>(terms: &mut Terms, items: &[T]) -> Run
    requires { length (view_of terms.old).entries + length items.now ≤ 2048 }
    ensures listed { ListedAs (view_of terms.old) (map T.entry items.now) result (view_of terms.new) }
    ensures begins { TermsBegin terms.old terms.new }
{
    terms.list(items)
}

/// A node that brings no names.
impl From<PlanNode> for Placed {
    ghost from_gives = { λ node placed. placed ≡ namelessly node };

    fn from(node: PlanNode) -> Placed {
        let none = Span { start: 0, len: 0 };
        Placed {
            node,
            lent: Lent {
                owner: none,
                given: none,
            },
        }
    }
}

/// Puts the names and lists of the node `number` into the tables.
// Clauses, not a type that keeps them: such a type would borrow the tables, and this call writes them.
pub fn place(terms: &mut Terms, node: NewNode<'_>, number: PlanId) -> Placed
    requires present { present_in (view_of terms.old) number.0 node ≡ true }
    requires bounded { bounded node ≡ true }
    requires lists { length (view_of terms.old).entries + entries_for node ≤ 2048 }
    requires text { length (view_of terms.old).bytes + bytes_for node ≤ 16384 }
    ensures placed { PlacedAs (view_of terms.old) number.0 node.entry result (view_of terms.new) }
    ensures begins { TermsBegin terms.old terms.new }
{
    match node {
        NewNode::Table { qualifier, names } => {
            let owner = terms.write(qualifier);
            let given = terms.write(names);
            Placed {
                node: PlanNode::Table {
                    number,
                    qualifier: owner,
                },
                lent: Lent { owner, given },
            }
        }
        NewNode::Projection { input, list } => {
            let list = put(terms, list);
            PlanNode::Projection { input, list }.into()
        }
        NewNode::Filter { input, predicate } => PlanNode::Filter { input, predicate }.into(),
        NewNode::Sort { input, keys } => {
            let keys = put(terms, keys);
            PlanNode::Sort { input, keys }.into()
        }
        NewNode::Limit { input, skip, count } => PlanNode::Limit { input, skip, count }.into(),
        NewNode::Aggregate {
            input,
            groups,
            totals,
        } => {
            let groups = put(terms, groups);
            let totals = put(terms, totals);
            PlanNode::Aggregate {
                input,
                groups,
                totals,
            }
            .into()
        }
        NewNode::Join {
            kind,
            left,
            right,
            on,
        } => {
            let on = put(terms, on);
            PlanNode::Join {
                kind,
                left,
                right,
                on,
            }
            .into()
        }
        NewNode::SubqueryAlias { input, name } => {
            let owner = terms.write(name);
            Placed {
                node: PlanNode::SubqueryAlias { input, name: owner },
                lent: Lent {
                    owner,
                    given: Span { start: 0, len: 0 },
                },
            }
        }
        NewNode::Union { inputs } => {
            let inputs = put(terms, inputs);
            PlanNode::Union { inputs }.into()
        }
    }
}
