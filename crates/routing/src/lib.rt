//! What of an expression the optimizer would move, and which input of a node owns it.
#![tactic(auto)]

pub mod keeping;
pub mod marked;
pub mod owning;
pub mod placement;
pub mod same;
pub mod seeking;
