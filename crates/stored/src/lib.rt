//! What the plan table holds of a node, what a node that is to be made brings, and how its names and lists are put into the tables.
#![tactic(auto)]

mod keys;
pub mod node;
mod own;
pub mod placing;
