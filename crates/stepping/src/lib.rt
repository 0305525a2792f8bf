//! Steps of an extract over the tables: each comes to what its definition on trees says, whatever was spent before.
#![tactic(auto)]

pub mod making;
