//! What one place of the tables of expressions and lists holds, and what may stand in a list.
#![tactic(auto)]

pub mod listed;
pub mod node;
