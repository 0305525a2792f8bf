//! Whether an expression is null wherever all its columns are.
ghost use Rattle.plan.specs.Functions.{function_at, is_null, null_keeping, strict_in};
ghost use Rattle.std.specs.Prelude.{◌≡◌, ℕ, ◌<◌, List};
ghost use Rattle.entries.specs.Spans.{literal_at};
ghost use Rattle.terms.specs.Views.{count, tree_of, view_of};

use entries::listed::Listed;
use entries::node::{ExprId, ExprNode, Literal};
use terms::terms::Terms;

fn is_null(literal: Literal) -> bool
    ensures { (bytes : List ℕ) → result ≡ is_null (literal_at bytes literal) }
{
    matches!(literal, Literal::Null)
}

/// Whether a function is strict; one that is not declared is not.
fn is_strict(terms: &Terms, number: u8) -> bool
    ensures { result ≡ strict_in (function_at (view_of terms.now).functions number) }
{
    terms
        .function(number)
        .is_some_and(|declared| declared.strict)
}

/// Whether an expression is null wherever all its columns are: a column, the null literal, or a strict call with such an
/// argument.
pub fn null_keeping(terms: &Terms, e: ExprId) -> bool
    requires { e.0 < count terms.now }
    ensures { result ≡ null_keeping (view_of terms.now).functions (tree_of terms.now e.0) }
{
    match terms.node(e) {
        ExprNode::Constant(literal) => is_null(literal),
        ExprNode::Reference(_) => true,
        ExprNode::Alias { inner, .. } => null_keeping(terms, inner),
        ExprNode::Call {
            function,
            arguments,
        } => {
            if !is_strict(terms, function) {
                return false;
            }
            for entry in terms.entries(arguments) {
                if null_keeping(terms, ExprId::read(*entry)) {
                    return true;
                }
            }
            false
        }
    }
}
