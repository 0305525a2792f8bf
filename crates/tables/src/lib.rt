//! The five tables of a book, the calls that make an expression in them, and the call that stores a node.
#![tactic(auto)]

pub mod marks;
pub mod tables;
