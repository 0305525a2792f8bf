//! Marked calls are taken out of a node and put under aliases below it, over the tables.
#![tactic(auto)]

mod aggregate;
pub mod extract;
mod extraction;
mod filter;
mod join;
mod over;
pub mod shape;
mod sort;
