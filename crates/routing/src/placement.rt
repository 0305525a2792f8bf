//! Where the optimizer would have an expression.
ghost use Rattle.plan.specs.Functions.{all_constant, first_column, is_constant, is_keep, is_marked, none_kept, placed_by as placed_tree, placement_of};
ghost use Rattle.routing.specs.Placing.{named};
ghost use Rattle.std.specs.Prelude.{◌≡◌, ◌<◌, not, ◌&&◌, map};
ghost use Rattle.terms.specs.Views.{count, tree_of, view_of};

use entries::listed::Listed;
use entries::node::{ExprId, ExprNode};
use plan::code::Rule;
use table::table::Table;
use terms::terms::Terms;

/// Where the optimizer would have an expression.
#[derive(Clone, Copy, PartialEq, Eq, Debug)]
pub enum ExpressionPlacement {
    Literal,
    Column,
    /// Marked: it is taken out, and carried towards the tables.
    MoveTowardsLeafNodes,
    KeepInPlace,
}

use ExpressionPlacement::{Column, KeepInPlace, MoveTowardsLeafNodes};

impl ExpressionPlacement {
    /// Whether it is Marked.
    pub fn is_marked(self) -> bool
        ensures { result ≡ is_marked (named self) }
    {
        matches!(self, MoveTowardsLeafNodes)
    }

    /// Whether it is a column, or moved itself.
    fn moves(self) -> bool
        ensures { result ≡ (not (is_constant (named self)) && not (is_keep (named self))) }
    {
        matches!(self, Column | MoveTowardsLeafNodes)
    }
}

/// Whether all of some arguments are literals.
fn are_literals(arguments: &[ExpressionPlacement]) -> bool
    ensures { result ≡ all_constant (map named arguments.now) }
{
    arguments.iter().all(|p| *p == ExpressionPlacement::Literal)
}

/// Whether none of some arguments is kept.
fn none_stays(arguments: &[ExpressionPlacement]) -> bool
    ensures { result ≡ none_kept (map named arguments.now) }
{
    arguments.iter().all(|p| *p != KeepInPlace)
}

/// Whether the first argument is a column or moved itself, and the others are literals.
fn is_first_column(arguments: &[ExpressionPlacement]) -> bool
    ensures { result ≡ first_column (map named arguments.now) }
{
    match arguments {
        [] => false,
        [first, others @ ..] => first.moves() && are_literals(others),
    }
}

/// Whether no argument is kept, and one is no literal.
fn is_any_column(arguments: &[ExpressionPlacement]) -> bool
    ensures { result ≡ (none_kept (map named arguments.now) && not (all_constant (map named arguments.now))) }
{
    none_stays(arguments) && !are_literals(arguments)
}

/// Where a call is had, by its function's rule and where its arguments are.
fn placed_by(rule: Rule, arguments: &[ExpressionPlacement]) -> ExpressionPlacement
    ensures { named result ≡ placed_tree rule (map named arguments.now) }
{
    let moves = match rule {
        Rule::Stay | Rule::Total => false,
        Rule::FirstColumn => is_first_column(arguments),
        Rule::AnyColumn => is_any_column(arguments),
        Rule::Always => true,
    };
    if moves {
        MoveTowardsLeafNodes
    } else {
        KeepInPlace
    }
}

/// Where the optimizer would have an expression.
pub fn placement(terms: &Terms, e: ExprId) -> ExpressionPlacement
    requires { e.0 < count terms.now }
    ensures { named result ≡ placement_of (view_of terms.now).functions (tree_of terms.now e.0) }
{
    match terms.node(e) {
        ExprNode::Constant(_) => ExpressionPlacement::Literal,
        ExprNode::Reference(_) => Column,
        ExprNode::Alias { inner, .. } => placement(terms, inner),
        ExprNode::Call {
            function,
            arguments,
        } => {
            let mut placements: Table<ExpressionPlacement, 4> = Table::new(KeepInPlace);
            for entry in terms.entries(arguments) {
                placements.push(placement(terms, ExprId::read(*entry)));
            }
            placed_by(terms.rule(function), placements.as_slice())
        }
    }
}
