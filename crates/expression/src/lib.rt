//! The calls that make an expression, as functions over the expressions.
#![tactic(auto)]

pub mod building;
pub mod calling;
pub mod reusing;
