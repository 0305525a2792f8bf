//! The expressions that were taken out, and their aliases.
ghost use Rattle.extracting.specs.Extractors.{Inside, entries_of, extractor_of, needs_of};
ghost use Rattle.plan.specs.Terms.{references_of};
ghost use Rattle.rewriting.specs.Generated.{countable, generated};
ghost use Rattle.rewriting.specs.Routing.{add_extracted, entered, needs};
ghost use Rattle.routing.specs.Sides.{side_of};
ghost use Rattle.std.specs.Prelude.{◌≡◌, ◌+◌, ◌<◌, ◌≤◌, true, None, length, option_map, ⊤, MatchOption};
ghost use Rattle.terms.specs.Views.{count, tree_of, view_of};

use super::{Extracted, Extractor};
use entries::node::ExprId;
use routing::owning::Side;
use routing::same::same_expr;
use terms::terms::Terms;

impl Extractor {
    /// The number of the alias that an equal expression has already.
    pub fn entered(&self, terms: &Terms, e: ExprId) -> Option<u32>
        requires inside { Inside (view_of terms.now) self.now }
        requires present { e.0 < count terms.now }
        ensures value { option_map generated result ≡ entered (tree_of terms.now e.0) (entries_of (view_of terms.now) self.now) }
        ensures number { MatchOption result ⊤ (λ alias. countable alias ≡ true) }
        ensures earlier { MatchOption result ⊤ (λ alias. alias < self.now.next) }
    {
        for held in self.entries.as_slice() {
            if same_expr(terms, held.inner, e) {
                return Some(held.alias);
            }
        }
        None
    }

    /// Enters an expression that has no alias yet, under the next number.
    #[tactic(auto, unfolding(rewriting::specs::Generated::countable))]
    pub(super) fn enter(&mut self, terms: &Terms, side: Side, e: ExprId)
        requires inside { Inside (view_of terms.now) self.old }
        requires present { e.0 < count terms.now }
        requires number { countable self.old.next ≡ true }
        requires entries { length self.old.entries < 1024 }
        requires needed { length (needs (side_of side) (references_of (tree_of terms.now e.0)) (needs_of (view_of terms.now) self.old)) ≤ 256 }
        ensures value { extractor_of (view_of terms.now) self.new ≡ (add_extracted (side_of side) (tree_of terms.now e.0) (extractor_of (view_of terms.now) self.old) None).1 }
        ensures inside { Inside (view_of terms.now) self.new }
        ensures entries { length self.new.entries ≡ length self.old.entries + 1 }
    {
        self.needs(terms, side, e);
        let alias = self.next;
        self.entries.push(Extracted {
            side,
            inner: e,
            alias,
        });
        self.next = alias + 1;
        self.is_new = true;
    }
}
