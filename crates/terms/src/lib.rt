//! Expression trees in fixed tables.
#![tactic(auto)]

pub mod marks;
pub mod terms;
