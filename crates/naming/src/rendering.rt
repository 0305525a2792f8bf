//! Rendered names.
ghost use Rattle.std.specs.Prelude.{◌≡◌, ◌+◌, ◌<◌, ◌≤◌, true, ◌++◌, length};
ghost use Rattle.plan.specs.Rendering.{rendered, rendered_literal};
ghost use Rattle.plan.specs.Terms.Expr.{reference};
ghost use Rattle.terms.specs.Build.{gap, width_of};
ghost use Rattle.entries.specs.Spans.{literal_at, literal_in, stored_field, stored_in};
ghost use Rattle.terms.specs.Views.{count, tree_of, view_of};

use entries::listed::Listed;
use entries::node::{ExprId, ExprNode, Literal, StoredField};
use names::{write_hexadecimal, write_signed};
use std::num::f64_to_bits_with_nan;
use table::table::Table;
use terms::terms::Terms;

/// Parts an argument from the one before it, if there is one.
// Not in the loop of `render`: here both cases are one clause, by the definition `gap`.
fn part(i: usize, out: &mut Table<u8, 131072>)
    requires { length out.old + length (gap i) ≤ 131072 }
    ensures { out.new ≡ out.old ++ gap i }
{
    if i > 0 {
        out.push(b' ');
    }
}

/// Writes a literal.
// Not `Display`, here and below: a name needs the tables, and is promised byte by byte. One arm for each kind: the matches
// say what the kinds mean.
fn render_literal(terms: &Terms, l: Literal, out: &mut Table<u8, 131072>)
    requires inside { literal_in (view_of terms.now).bytes l ≡ true }
    requires room { length out.old + length (rendered_literal (literal_at (view_of terms.now).bytes l)) ≤ 131072 }
    ensures { out.new ≡ out.old ++ rendered_literal (literal_at (view_of terms.now).bytes l) }
{
    match l {
        Literal::Null => out.extend(b"null"),
        Literal::Truth(true) => out.extend(b"true"),
        Literal::Truth(false) => out.extend(b"false"),
        Literal::Whole(n) => write_signed(out, n),
        Literal::Real(x) => write_hexadecimal(out, f64_to_bits_with_nan(x)),
        Literal::Text(s) => out.extend(terms.word(s)),
    }
}

/// Writes a qualifier with its dot, if there is one, and a name.
fn render_field(terms: &Terms, field: StoredField, out: &mut Table<u8, 131072>)
    requires inside { stored_in (view_of terms.now).bytes field ≡ true }
    requires room { length out.old + length (rendered (view_of terms.now).functions (reference (stored_field (view_of terms.now).bytes field))) ≤ 131072 }
    ensures { out.new ≡ out.old ++ rendered (view_of terms.now).functions (reference (stored_field (view_of terms.now).bytes field)) }
{
    if let Some(qualifier) = field.qualifier {
        out.extend(terms.word(qualifier));
        out.push(b'.');
    }
    out.extend(terms.word(field.name));
}

/// Writes the name of an expression.
pub fn render(terms: &Terms, e: ExprId, out: &mut Table<u8, 131072>)
    requires present { e.0 < count terms.now }
    requires room { length out.old + width_of (view_of terms.now).functions (tree_of terms.now e.0) ≤ 131072 }
    ensures { out.new ≡ out.old ++ rendered (view_of terms.now).functions (tree_of terms.now e.0) }
{
    match terms.node(e) {
        ExprNode::Constant(l) => render_literal(terms, l, out),
        ExprNode::Reference(field) => render_field(terms, field, out),
        ExprNode::Alias { field, .. } => out.extend(terms.word(field.name)),
        ExprNode::Call {
            function,
            arguments,
        } => {
            out.extend(terms.name_of(function));
            out.push(b'(');
            for (i, entry) in terms.entries(arguments).iter().enumerate() {
                part(i, out);
                render(terms, ExprId::read(*entry), out);
            }
            out.push(b')');
        }
    }
}
