//! The vocabulary of plans: codes, faults and names; `specs/` holds what plans are.
#![tactic(auto)]

pub mod code;
pub mod fault;
