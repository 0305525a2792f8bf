//! A node over one input, apart from the input.
ghost use Rattle.leaf_expressions.specs.Shapes.{node_over};
ghost use Rattle.std.specs.Prelude.{◌≡◌};

use entries::node::{ExprId, PlanId};
use stored::node::{NewNode, SortKey};

/// What a Filter, a Sort or an Aggregate has beside its input.
#[derive(Clone, Copy)]
pub enum Shape<'a> {
    Filter {
        predicate: ExprId,
    },
    Sort {
        keys: &'a [SortKey],
    },
    Aggregate {
        groups: &'a [ExprId],
        totals: &'a [ExprId],
    },
}

impl<'a> Shape<'a> {
    /// The node over an input.
    pub fn over(self, input: PlanId) -> NewNode<'a>
        ensures { result ≡ node_over self.entry input }
    {
        match self {
            Shape::Filter { predicate } => NewNode::Filter { input, predicate },
            Shape::Sort { keys } => NewNode::Sort { input, keys },
            Shape::Aggregate { groups, totals } => NewNode::Aggregate {
                input,
                groups,
                totals,
            },
        }
    }
}
