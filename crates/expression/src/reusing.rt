//! Calls that make a node of names and parts that are stored already: they write no text and ask no name.
ghost use Rattle.std.specs.Prelude.{◌≡◌, ◌<◌, true, length};
ghost use Rattle.expression.specs.Reusing.{Reused};
ghost use Rattle.plan.specs.Calls.{good_alias, good_field};
ghost use Rattle.plan.specs.Functions.{Functions};
ghost use Rattle.plan.specs.Questions.{small_tree};
ghost use Rattle.plan.specs.Terms.Expr.{alias as alias_tree, reference as reference_tree};
ghost use Rattle.terms.specs.Begun.{TermsBegin};
ghost use Rattle.terms.specs.Build.{width_of};
ghost use Rattle.entries.specs.Spans.{stored_field, stored_in};
ghost use Rattle.terms.specs.Views.{count, tree_of, view_of};

use crate::building::ask_room;
use entries::node::{ExprId, ExprNode, StoredField};
use plan::fault::Fault;
use terms::terms::Terms;

/// How long the rendered name of a reference is.
fn column_width(terms: &Terms, field: StoredField) -> u32
    requires { stored_in (view_of terms.now).bytes field ≡ true }
    ensures { (fs : Functions) → result ≡ width_of fs (reference_tree (stored_field (view_of terms.now).bytes field)) }
{
    let name = terms.word(field.name).len();
    let qualifier = field.qualifier.map_or(0, |q| terms.word(q).len() + 1);
    (name + qualifier) as u32
}

/// A reference to a field.
pub fn column(terms: &mut Terms, field: StoredField) -> Result<ExprId, Fault>
    requires stored { stored_in (view_of terms.old).bytes field ≡ true }
    requires good { good_field (stored_field (view_of terms.old).bytes field) ≡ true }
    ensures answer { Reused (view_of terms.old) (reference_tree (stored_field (view_of terms.old).bytes field)) result (view_of terms.new) }
    ensures begins { TermsBegin terms.old terms.new }
{
    ask_room(terms, 0, 0)?;
    let width = column_width(terms, field);
    Ok(terms.add(ExprNode::Reference(field), 1, width))
}

/// An expression under the name of a field.
pub fn alias_as(terms: &mut Terms, inner: ExprId, field: StoredField) -> Result<ExprId, Fault>
    requires present { inner.0 < count terms.old }
    requires stored { stored_in (view_of terms.old).bytes field ≡ true }
    requires good { good_alias (stored_field (view_of terms.old).bytes field) ≡ true }
    requires small { small_tree (alias_tree (tree_of terms.old inner.0) (stored_field (view_of terms.old).bytes field)) ≡ true }
    ensures answer { Reused (view_of terms.old) (alias_tree (tree_of terms.old inner.0) (stored_field (view_of terms.old).bytes field)) result (view_of terms.new) }
    ensures begins { TermsBegin terms.old terms.new }
{
    ask_room(terms, 0, 0)?;
    let size = terms.size(inner) + 1;
    let width = terms.word(field.name).len() as u32;
    Ok(terms.add(ExprNode::Alias { inner, field }, size, width))
}
