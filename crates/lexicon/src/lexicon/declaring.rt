//! How a function is declared.
ghost use Rattle.std.specs.Prelude.{◌≡◌, ◌+◌, ◌<◌, true, not, ◌&&◌, length, is_some, Some, nat_le, nat_lt, slice_set};
ghost use Rattle.plan.specs.Functions.{function_at};
ghost use Rattle.plan.specs.Names.{good_name, prefixed};
ghost use Rattle.lexicon.specs.Declarations.{good_function, function_in};
ghost use Rattle.lexicon.specs.Declaring.{DeclareAnswered};
ghost use Rattle.lexicon.specs.Lexicon.{functions_of, text_of};
ghost use Rattle.names.specs.Spans.{span_in};

use super::Lexicon;
use crate::declaration::Declaration;
use names::{good_name, is_prefixed};
use plan::code::Rule;
use plan::fault::{Fault, Question, ask};

/// Whether a function may have this name.
fn names_function(name: &[u8]) -> bool
    ensures { result ≡ (good_name name.now && not (prefixed name.now)) }
{
    good_name(name) && !is_prefixed(name)
}

impl Lexicon {
    /// Whether a number can be declared and is not yet.
    fn is_free(&self, number: u8) -> bool
        ensures { result ≡ (nat_lt number 64 && not (is_some (function_at (functions_of self.now) number))) }
    {
        number < 64 && self.function(number).is_none()
    }

    fn has_room(&self, bytes: usize) -> bool
        ensures { result ≡ nat_le (length (text_of self.now) + bytes) 16384 }
    {
        bytes <= self.room()
    }

    fn set_function(&mut self, number: u8, function: Declaration)
        requires number { number < 64 }
        requires inside { span_in (text_of self.old) function.name ≡ true }
        requires good { good_function (function_in (text_of self.old) (Some function)) ≡ true }
        ensures functions { functions_of self.new ≡ slice_set (functions_of self.old) number (function_in (text_of self.old) (Some function)) }
        ensures text { text_of self.new ≡ text_of self.old }
    {
        self.functions[number as usize] = Some(function);
    }

    /// Declares a function under a number that is free.
    // The rule comes as its number, since outside a book codes and refusals are known by number.
    pub fn declare(
        &mut self,
        number: u8,
        name: &[u8],
        arity: u8,
        rule: u8,
        strict: bool,
    ) -> Result<(), Fault>
        ensures { DeclareAnswered self.old number name.now arity rule strict result self.new }
    {
        ask(names_function(name), Question::Named)?;
        ask(self.is_free(number) && arity <= 4, Question::Bounded)?;
        let rule = Rule::try_from(rule)?;
        ask(self.has_room(name.len()), Question::Space)?;
        let function = Declaration {
            name: self.write(name),
            arity,
            rule,
            strict,
        };
        self.set_function(number, function);
        Ok(())
    }
}
