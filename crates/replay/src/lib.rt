//! Calls of an open book as values, and lists of them performed one after the other.
#![tactic(auto)]

pub mod act;
pub mod performing;
