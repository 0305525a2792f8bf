//! What names of expressions are: which field a reference means, and rendered names.
#![tactic(auto)]

pub mod rendering;
pub mod resolving;
