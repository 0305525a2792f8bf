//! The aliases that extract generates, and the first number that one may take.
#![tactic(auto)]

pub mod alias;
pub mod next;
