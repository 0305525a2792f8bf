//! Taking Marked calls out of an expression of a book, under generated aliases.
#![tactic(auto)]

pub mod extractor;
pub mod inputs;
pub mod rebuilding;
pub mod walking;
