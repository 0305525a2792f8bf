//! Pairs merged into a Projection of a book: what stands in for its fields, and the list with the pairs and the needed columns.
#![tactic(auto)]

mod columns;
mod joining;
pub mod merge;
mod pairs;
pub mod replacing;
