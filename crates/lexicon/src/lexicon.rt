//! The declared functions and the text; the methods stand below, so that they can cite `specs/Lexicon.antt`.
ghost use Rattle.plan.specs.Fields.{every};
ghost use Rattle.lexicon.specs.Declarations.{good_function, declaration_in, functions_in};
ghost use Rattle.std.specs.Prelude.{◌≡◌, ◌≤◌, true, length};

use crate::declaration::Declaration;
use table::table::Table;

mod declaring;
mod methods;

#[derive(Drop)]
pub struct Lexicon {
    functions: [Option<Declaration>; 64],
    text: Table<u8, 16384>,
    ghost long: { length functions ≡ 64 },
    ghost fits: { length text ≤ 16384 },
    ghost inside: { every (declaration_in text) functions ≡ true },
    ghost good: { every good_function (functions_in text functions) ≡ true },
}
