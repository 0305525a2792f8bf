//! What a node that is to be made is asked, and how it is made.
#![tactic(auto)]

mod asked;
mod asking;
mod drafting;
mod lawful;
pub mod making;
mod measuring;
