//! A guard that puts the tables back, for calls that make several things.
#![tactic(auto)]

ghost use Rattle.std.specs.Prelude.{◌≡◌};
ghost use Rattle.tables.specs.Begun.{Begun, SameTables};
ghost use Rattle.tables.specs.Holding.{model_of};

use tables::marks::Marks;
use tables::tables::Tables;

#[cfg(test)]
mod tests;

/// Tables in which several things are made. Dropped, as `?` does, it puts them back to what they held when it began.
pub struct Attempt<'a> {
    pub tables: &'a mut Tables,
    marks: Marks,
}

impl<'a> Attempt<'a> {
    pub fn begin(tables: &'a mut Tables) -> Attempt<'a>
        ensures same_reference { result.tables.ghost_name ≡ tables.entry.ghost_name }
        ensures tables { result.tables.now ≡ tables.old }
        ensures begun { Begun tables.old result.marks result.tables.now }
    {
        let marks = tables.marks();
        Attempt { tables, marks }
    }

    /// Leaves the tables as they are.
    pub fn keep(self)
        ensures { self.exit.0.now ≡ self.entry.tables.now }
    {
        let Attempt {
            tables: _,
            marks: _,
        } = self;
    }
}

impl Drop for Attempt<'_> {
    fn drop(self)
        requires { (s : Tables) × Begun s self.marks self.tables.now }
        ensures same { (s : Tables) → Begun s self.entry.marks self.entry.tables.now → SameTables s self.exit.0.now }
        ensures model { (s : Tables) → Begun s self.entry.marks self.entry.tables.now → model_of self.exit.0.now ≡ model_of s }
    {
        let Attempt { tables, marks } = self;
        tables.back_to(marks);
    }
}
