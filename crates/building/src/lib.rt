//! The calls that make a node: each asks the questions of its own, and then the tables make the node.
#![tactic(auto)]

pub mod nodes;
pub mod wider;
