//! The columns that are needed, by first occurrence.
ghost use Rattle.extracting.specs.Extractors.{Inside, extractor_of, needing, needs_of};
ghost use Rattle.plan.specs.Fields.{any};
ghost use Rattle.plan.specs.Terms.{references_of, same_field};
ghost use Rattle.rewriting.specs.Routing.{need, needs, noted, same_side};
ghost use Rattle.routing.specs.Sides.{side_of};
ghost use Rattle.std.specs.Prelude.{◌≡◌, ◌<◌, ◌≤◌, true, ◌&&◌, [], ◌∷◌, length, option_map};
ghost use Rattle.entries.specs.Spans.{stored_field, stored_in};
ghost use Rattle.terms.specs.Views.{count, tree_of, view_of};

use super::{Extractor, Needed};
use entries::listed::Listed;
use entries::node::{ExprId, ExprNode, StoredField};
use naming::resolving::same_field;
use routing::owning::Side;
use terms::terms::Terms;

/// Whether two inputs are the same one.
#[tactic(auto, unfolding(rewriting::specs::Routing::same_side))]
fn same_side(a: Side, b: Side) -> bool
    ensures { result ≡ same_side (side_of a) (side_of b) }
{
    matches!(
        (a, b),
        (Side::First, Side::First) | (Side::Second, Side::Second)
    )
}

/// Whether a needed column is this one, of this input.
fn is_need(terms: &Terms, held: Needed, side: Side, field: StoredField) -> bool
    requires held { stored_in (view_of terms.now).bytes held.field ≡ true }
    requires field { stored_in (view_of terms.now).bytes field ≡ true }
    ensures { result ≡ (same_side (side_of held.side) (side_of side) && same_field (stored_field (view_of terms.now).bytes held.field) (stored_field (view_of terms.now).bytes field)) }
{
    same_side(held.side, side) && same_field(terms, held.field, field)
}

impl Extractor {
    /// Whether a column is needed already.
    fn needs_column(&self, terms: &Terms, side: Side, field: StoredField) -> bool
        requires inside { Inside (view_of terms.now) self.now }
        requires field { stored_in (view_of terms.now).bytes field ≡ true }
        ensures { result ≡ any (λ m. same_side m.0 (side_of side) && same_field m.1 (stored_field (view_of terms.now).bytes field)) (needs_of (view_of terms.now) self.now) }
    {
        self.needed
            .as_slice()
            .iter()
            .any(|held| is_need(terms, *held, side, field))
    }

    /// Notes that a column is needed.
    fn need(&mut self, terms: &Terms, side: Side, field: StoredField)
        requires inside { Inside (view_of terms.now) self.old }
        requires field { stored_in (view_of terms.now).bytes field ≡ true }
        requires room { length (need (side_of side) (stored_field (view_of terms.now).bytes field) (needs_of (view_of terms.now) self.old)) ≤ 256 }
        ensures value { extractor_of (view_of terms.now) self.new ≡ needing (side_of side) (stored_field (view_of terms.now).bytes field ∷ []) (extractor_of (view_of terms.now) self.old) }
        ensures inside { Inside (view_of terms.now) self.new }
        ensures entries { self.new.entries ≡ self.old.entries }
    {
        if !self.needs_column(terms, side, field) {
            self.needed.push(Needed { side, field });
        }
    }

    /// Notes that a reference's column is needed, if one input owns it.
    pub fn noted(&mut self, terms: &Terms, owner: Option<Side>, field: StoredField)
        requires inside { Inside (view_of terms.now) self.old }
        requires field { stored_in (view_of terms.now).bytes field ≡ true }
        requires room { length (noted (option_map side_of owner) (stored_field (view_of terms.now).bytes field) (extractor_of (view_of terms.now) self.old)).needed ≤ 256 }
        ensures value { extractor_of (view_of terms.now) self.new ≡ noted (option_map side_of owner) (stored_field (view_of terms.now).bytes field) (extractor_of (view_of terms.now) self.old) }
        ensures inside { Inside (view_of terms.now) self.new }
        ensures entries { self.new.entries ≡ self.old.entries }
    {
        if let Some(side) = owner {
            self.need(terms, side, field);
        }
    }

    /// Notes that all columns of an expression are needed.
    pub fn needs(&mut self, terms: &Terms, side: Side, e: ExprId)
        requires inside { Inside (view_of terms.now) self.old }
        requires present { e.0 < count terms.now }
        requires room { length (needs (side_of side) (references_of (tree_of terms.now e.0)) (needs_of (view_of terms.now) self.old)) ≤ 256 }
        ensures value { extractor_of (view_of terms.now) self.new ≡ needing (side_of side) (references_of (tree_of terms.now e.0)) (extractor_of (view_of terms.now) self.old) }
        ensures inside { Inside (view_of terms.now) self.new }
        ensures entries { self.new.entries ≡ self.old.entries }
    {
        match terms.node(e) {
            ExprNode::Constant(_) => {}
            ExprNode::Reference(field) => self.need(terms, side, field),
            ExprNode::Alias { inner, .. } => self.needs(terms, side, inner),
            ExprNode::Call { arguments, .. } => {
                for entry in terms.entries(arguments) {
                    self.needs(terms, side, ExprId::read(*entry));
                }
            }
        }
    }
}
