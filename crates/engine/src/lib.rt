//! Engines: what values the calls of declared functions.
#![tactic(auto)]

ghost use Rattle.std.specs.Prelude.{◌≡◌, ℕ, Bool, map};
ghost use Rattle.engine.specs.Strictness.{Meaning, Nulls};
ghost use Rattle.value.specs.Meanings.{meaning_of};

use value::Value;

pub mod arithmetic;
pub mod pair;
pub mod records;
#[cfg(test)]
mod tests;

/// Gives one value for the number of a function and its arguments. It refuses nothing and changes nothing.
pub trait Engine {
    /// What a call means, over the book's text and the row text.
    ghost meaning: { Self → Meaning };

    /// Which numbers give null wherever an argument is null.
    ghost strict: { Self → ℕ → Bool };

    /// The law that they do, which each engine proves.
    ghost nulls: { Nulls meaning strict };

    /// The value of a call.
    // The two texts are two slices, not one struct: the interface of engines, which crates above call.
    fn apply(&self, book: &[u8], row: &[u8], number: u32, args: &[Value]) -> Value
        ensures { meaning_of book.now row.now result ≡ meaning self.now book.now row.now number (map (meaning_of book.now row.now) args.now) };

    /// Whether a number is strict.
    fn is_strict(&self, number: u32) -> bool
        ensures { result ≡ strict self.now number };
}
