//! How the tables of expressions are put back to what they held before.
ghost use Rattle.std.specs.Prelude.{◌≡◌};
ghost use Rattle.terms.specs.Begun.{Begun, SameTerms};
ghost use Rattle.terms.specs.Views.{view_of};

use super::Terms;
use crate::marks::Marks;

impl Terms {
    /// How much there is.
    pub fn marks(&self) -> Marks
        ensures { Begun self.now result self.now }
    {
        Marks {
            exprs: self.exprs.len(),
            entries: self.entries.len(),
            bytes: self.lexicon.len(),
        }
    }

    /// Forgets all that came after the marks were taken.
    pub fn back_to(&mut self, marks: Marks)
        requires { (s : Terms) × Begun s marks self.old }
        ensures same { (s : Terms) → Begun s marks self.old → SameTerms s self.new }
        ensures view { (s : Terms) → Begun s marks self.old → view_of self.new ≡ view_of s }
    {
        self.lexicon.back_to(marks.bytes);
        self.exprs.truncate(marks.exprs);
        self.entries.truncate(marks.entries);
    }
}
