//! Tests of the calls of a book: questions 6 to 9, at both sides of each bound that they have.
#![tactic(auto)]

#[cfg(test)]
mod fielded;
#[cfg(test)]
mod limited;
#[cfg(test)]
mod space;
