//! Books of query plans: functions are declared, the book is opened, and then come its calls.
#![tactic(auto)]

pub mod declaration;
pub mod opened;
