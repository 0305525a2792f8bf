//! Whether two expressions are equal: their trees are, reals by their bits.
ghost use Rattle.plan.specs.Terms.{same_expr, same_literal};
ghost use Rattle.std.specs.Prelude.{◌≡◌, ◌<◌, true};
ghost use Rattle.entries.specs.Spans.{literal_at, literal_in};
ghost use Rattle.terms.specs.Views.{count, tree_of, view_of};

use entries::listed::Listed;
use entries::node::{ExprId, ExprNode, Literal};
use naming::resolving::same_field;
use std::num::f64_to_bits_with_nan;
use terms::terms::Terms;

/// Whether two literals are equal: reals by their bits, all not-a-numbers alike.
fn same_literal(terms: &Terms, a: Literal, b: Literal) -> bool
    requires left { literal_in (view_of terms.now).bytes a ≡ true }
    requires right { literal_in (view_of terms.now).bytes b ≡ true }
    ensures { result ≡ same_literal (literal_at (view_of terms.now).bytes a) (literal_at (view_of terms.now).bytes b) }
{
    match (a, b) {
        (Literal::Null, Literal::Null) => true,
        (Literal::Truth(a), Literal::Truth(b)) => a == b,
        (Literal::Whole(m), Literal::Whole(n)) => m == n,
        (Literal::Real(x), Literal::Real(y)) => {
            f64_to_bits_with_nan(x) == f64_to_bits_with_nan(y)
        }
        (Literal::Text(s), Literal::Text(t)) => terms.word(s) == terms.word(t),
        _ => false,
    }
}

/// Whether two expressions are equal.
pub fn same_expr(terms: &Terms, a: ExprId, b: ExprId) -> bool
    requires left { a.0 < count terms.now }
    requires right { b.0 < count terms.now }
    ensures { result ≡ same_expr (tree_of terms.now a.0) (tree_of terms.now b.0) }
{
    match (terms.node(a), terms.node(b)) {
        (ExprNode::Constant(v), ExprNode::Constant(w)) => same_literal(terms, v, w),
        (ExprNode::Reference(f), ExprNode::Reference(g)) => same_field(terms, f, g),
        (ExprNode::Alias { inner: d, field: f }, ExprNode::Alias { inner: e, field: g }) => {
            same_expr(terms, d, e) && same_field(terms, f, g)
        }
        (
            ExprNode::Call {
                function: m,
                arguments: first,
            },
            ExprNode::Call {
                function: n,
                arguments: second,
            },
        ) => {
            if m != n {
                return false;
            }
            if first.count != second.count {
                return false;
            }
            let others = terms.entries(second);
            for (i, entry) in terms.entries(first).iter().enumerate() {
                if !same_expr(terms, ExprId::read(*entry), ExprId::read(others[i])) {
                    return false;
                }
            }
            true
        }
        _ => false,
    }
}
