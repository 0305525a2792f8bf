//! Projections that an extract builds over an input.
#![tactic(auto)]

pub mod columns;
pub mod fresh;
