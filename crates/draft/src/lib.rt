//! The fields of a plan's node before they are stored: a draft names its words where they are.
#![tactic(auto)]

pub mod building;
pub mod lawful;
pub mod reading;
pub mod storing;
pub mod word;
