//! Declared functions, and the text that names stand in.
#![tactic(auto)]

pub mod declaration;
pub mod lexicon;
