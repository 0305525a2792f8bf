//! Two engines side by side.
ghost use Rattle.engine.specs.Strictness.{pair-nulls, pair_meaning, pair_strict};
ghost use Rattle.std.specs.Prelude.{SomeIff, ◌-◌, ◌≤◌};

use super::Engine;
use value::Value;

/// Numbers below the split go to the first engine, the others, less the split, to the second.
#[derive(Clone, Copy, PartialEq, Eq, Debug)]
pub struct Pair<A, B> {
    pub split: u32,
    pub first: A,
    pub second: B,
}

impl<A, B> Pair<A, B> {
    /// The second engine's number, unless the number goes to the first.
    fn of_second(&self, number: u32) -> Option<u32>
        ensures { SomeIff result (self.now.split ≤ number) (number - self.now.split) }
    {
        number.checked_sub(self.split)
    }
}

impl<A: Engine, B: Engine> Engine for Pair<A, B> {
    ghost meaning = { λ e. pair_meaning e.split (A.Engine.meaning e.first) (B.Engine.meaning e.second) };

    ghost strict = { λ e. pair_strict e.split (A.Engine.strict e.first) (B.Engine.strict e.second) };

    ghost nulls = { λ e. pair-nulls e.split (A.Engine.nulls e.first) (B.Engine.nulls e.second) };

    fn apply(&self, book: &[u8], row: &[u8], number: u32, args: &[Value]) -> Value {
        match self.of_second(number) {
            None => self.first.apply(book, row, number, args),
            Some(rest) => self.second.apply(book, row, rest, args),
        }
    }

    fn is_strict(&self, number: u32) -> bool {
        match self.of_second(number) {
            None => self.first.is_strict(number),
            Some(rest) => self.second.is_strict(rest),
        }
    }
}
