//! A node rebuilt and recovered over the tables: each step comes to what its definition on trees says, whatever was spent before.
#![tactic(auto)]

pub mod columns;
mod comparing;
pub mod rebuilding;
pub mod recovery;
mod renaming;
