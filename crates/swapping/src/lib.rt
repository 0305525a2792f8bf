//! A node with one input replaced by another of the same origin.
#![tactic(auto)]

pub mod copying;
mod remaking;
pub mod swapping;
