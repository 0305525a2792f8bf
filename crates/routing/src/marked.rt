//! Whether an expression has a call that the optimizer would move.
ghost use Rattle.plan.specs.Model.{exprs_in};
ghost use Rattle.rewriting.specs.Routing.{has_extractable_expr, holds_marked};
ghost use Rattle.std.specs.Prelude.{◌≡◌, ◌<◌};
ghost use Rattle.terms.specs.Views.{AllPresent, count, numbers_of, tree_of, view_of};

use crate::placement::placement;
use entries::listed::Listed;
use entries::node::{ExprId, ExprNode};
use terms::terms::Terms;

/// Whether an expression is Marked, or a part of it.
fn holds_marked(terms: &Terms, e: ExprId) -> bool
    requires { e.0 < count terms.now }
    ensures { result ≡ holds_marked (view_of terms.now).functions (tree_of terms.now e.0) }
{
    match terms.node(e) {
        ExprNode::Constant(_) | ExprNode::Reference(_) => false,
        ExprNode::Alias { inner, .. } => holds_marked(terms, inner),
        ExprNode::Call { arguments, .. } => {
            if placement(terms, e).is_marked() {
                return true;
            }
            for entry in terms.entries(arguments) {
                if holds_marked(terms, ExprId::read(*entry)) {
                    return true;
                }
            }
            false
        }
    }
}

/// Whether one of some expressions is Marked, or a part of one.
pub fn has_extractable_expr(terms: &Terms, list: &[ExprId]) -> bool
    requires { AllPresent terms.now list.now }
    ensures { result ≡ has_extractable_expr (view_of terms.now).functions (exprs_in (view_of terms.now).trees (numbers_of list.now)) }
{
    list.iter().any(|e| holds_marked(terms, *e))
}
