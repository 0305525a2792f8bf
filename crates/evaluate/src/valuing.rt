//! The value of an expression of the tables, on a row.
ghost use Rattle.std.specs.Prelude.{◌≡◌, ℕ, ◌<◌, ◌≤◌, true, ◌&&◌, List, map, length, ◌==◌, nat_le};
ghost use Rattle.evaluate.specs.Evaluating.{Valued, bare, row_asked};
ghost use Rattle.plan.specs.Faults.{Settled};
ghost use Rattle.plan.specs.Fields.{every, resolved};
ghost use Rattle.plan.specs.Terms.{size_of};
ghost use Rattle.rows.specs.Rows.{literal_value, value_in};
ghost use Rattle.entries.specs.Spans.{literal_at, literal_in, stored_field, stored_in};
ghost use Rattle.terms.specs.Views.{count, tree_of, view_of};
ghost use Rattle.value.specs.Meanings.{meaning_of};

use engine::Engine;
use entries::listed::Listed;
use entries::node::{ExprId, ExprNode, Literal, StoredField};
use naming::resolving::resolved;
use plan::fault::{Fault, Question, ask};
use std::num::{f64_from_bits_with_nan, f64_to_bits_with_nan};
use terms::terms::Terms;
use value::{Side, Text, Value};

/// The value of a literal; a real is what its bits tell.
// No From: neither type is this crate's.
fn constant(v: Literal) -> Value
    ensures { (book row : List ℕ) → literal_in book v ≡ true → meaning_of book row result ≡ literal_value (literal_at book v) }
{
    match v {
        Literal::Null => Value::Null,
        Literal::Truth(b) => Value::Truth(b),
        Literal::Whole(n) => Value::Whole(n),
        Literal::Real(x) => Value::Real(f64_from_bits_with_nan(f64_to_bits_with_nan(x))),
        Literal::Text(span) => Value::Text(Text {
            side: Side::Book,
            start: span.start,
            len: span.len,
        }),
    }
}

/// A row that has the fields of a node: one value for each field, and the text that comes with the rows.
#[derive(Clone, Copy)]
pub(crate) struct Row<'a> {
    pub(crate) terms: &'a Terms,
    pub(crate) fields: &'a [StoredField],
    pub(crate) values: &'a [Value],
    pub(crate) text: &'a [u8],
    ghost stored: { every (stored_in (view_of terms.now).bytes) fields.now ≡ true },
}

impl Row<'_> {
    /// The value of an expression. The arguments of a call stand in the front of the scratch, and each is valued in the rest.
    // The expression and the scratch are not in `Row`: they are others at each call, and a row needs no engine.
    fn value_of<E: Engine>(&self, engine: &E, e: ExprId, scratch: &mut [Value]) -> Value
        requires wide { length self.now.values.now ≡ length self.now.fields.now }
        requires present { e.0 < count self.now.terms.now }
        requires resolved { resolved (map (stored_field (view_of self.now.terms.now).bytes) self.now.fields.now) (tree_of self.now.terms.now e.0) ≡ true }
        requires room { size_of (tree_of self.now.terms.now e.0) ≤ length scratch.old }
        ensures { meaning_of (view_of self.now.terms.now).bytes self.now.text.now result ≡ value_in (bare (E.Engine.meaning engine.now) (view_of self.now.terms.now).bytes self.now.text.now) (map (stored_field (view_of self.now.terms.now).bytes) self.now.fields.now) (map (meaning_of (view_of self.now.terms.now).bytes self.now.text.now) self.now.values.now) (tree_of self.now.terms.now e.0) }
    {
        // One arm for each kind: the match says what the kinds mean.
        match self.terms.node(e) {
            ExprNode::Constant(v) => constant(v),
            ExprNode::Reference(field) => self.values[self.seek(field)],
            ExprNode::Alias { inner, .. } => self.value_of(engine, inner, scratch),
            ExprNode::Call {
                function,
                arguments,
            } => {
                let (front, rest) = scratch.split_at_mut(arguments.count as usize);
                // Not a zip with `front.iter_mut()`: a proof knows nothing of what is written through an adapter's items.
                for (i, entry) in self.terms.entries(arguments).iter().enumerate() {
                    front[i] = self.value_of(engine, ExprId::read(*entry), rest);
                }
                engine.apply(self.terms.bytes(), self.text, function as u32, front)
            }
        }
    }

    /// Whether each field has a value, and the scratch a place for each node of the largest tree.
    fn has_places(&self, scratch: &[Value]) -> bool
        ensures { result ≡ (length self.now.values.now == length self.now.fields.now && nat_le 256 (length scratch.now)) }
    {
        self.values.len() == self.fields.len() && 256 <= scratch.len()
    }

    /// The questions on the row: 3, 4 and 6.
    fn ask(&self, e: ExprId, scratch: &[Value]) -> Result<(), Fault>
        requires { e.0 < count self.now.terms.now }
        ensures { Settled (row_asked (view_of self.now.terms.now).functions (map (stored_field (view_of self.now.terms.now).bytes) self.now.fields.now) (tree_of self.now.terms.now e.0) (length self.now.values.now) (length scratch.now)) (λ _. Unit {0}) (Unit {0}) result }
    {
        ask(self.has_places(scratch), Question::Bounded)?;
        ask(!self.terms.is_total(e), Question::Placed)?;
        ask(
            resolved(self.terms, self.fields, &[], e),
            Question::Resolved,
        )
    }

    /// The value of an expression, or a refusal.
    pub(crate) fn asked_value<E: Engine>(
        &self,
        engine: &E,
        e: ExprId,
        scratch: &mut [Value],
    ) -> Result<Value, Fault>
        requires { e.0 < count self.now.terms.now }
        ensures { Valued (row_asked (view_of self.now.terms.now).functions (map (stored_field (view_of self.now.terms.now).bytes) self.now.fields.now) (tree_of self.now.terms.now e.0) (length self.now.values.now) (length scratch.old)) (E.Engine.meaning engine.now) (view_of self.now.terms.now).bytes self.now.text.now (map (stored_field (view_of self.now.terms.now).bytes) self.now.fields.now) self.now.values.now (tree_of self.now.terms.now e.0) scratch.old scratch.new result }
    {
        self.ask(e, scratch)?;
        Ok(self.value_of(engine, e, scratch))
    }
}
