//! Tests of the calls of a book: the order of the questions, and swaps, traces and `same_report`.
#![tactic(auto)]

#[cfg(test)]
mod ordered;
#[cfg(test)]
mod swapped;
