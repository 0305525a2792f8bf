//! What a reader of a book may ask: nodes, expressions, fields, words, lists, and where an alias was given.
#![tactic(auto)]

pub mod reader;
