//! How the tables are put back to what they held before.
ghost use Rattle.std.specs.Prelude.{◌≡◌};
ghost use Rattle.tables.specs.Begun.{Begun, SameTables};
ghost use Rattle.tables.specs.Holding.{model_of};

use super::Tables;
use crate::marks::Marks;

impl Tables {
    /// How much there is.
    pub fn marks(&self) -> Marks
        ensures { Begun self.now result self.now }
    {
        Marks {
            terms: self.terms.marks(),
            fields: self.fields.len(),
            plans: self.plans.len(),
        }
    }

    /// Forgets all that came after the marks were taken.
    pub fn back_to(&mut self, marks: Marks)
        requires { (s : Tables) × Begun s marks self.old }
        ensures same { (s : Tables) → Begun s marks self.old → SameTables s self.new }
        ensures model { (s : Tables) → Begun s marks self.old → model_of self.new ≡ model_of s }
    {
        self.terms.back_to(marks.terms);
        self.fields.truncate(marks.fields);
        self.plans.truncate(marks.plans);
    }
}
