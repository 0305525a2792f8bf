//! Tests of the calls of a book: questions 1 to 4, at both sides of each bound that they have.
#![tactic(auto)]

#[cfg(test)]
mod bounded;
#[cfg(test)]
mod named;
#[cfg(test)]
mod placed;
#[cfg(test)]
mod present;
