//! A book in declaration: the type of the state before opening.
use lexicon::lexicon::Lexicon;

mod declaring;

#[derive(Drop)]
pub struct Book {
    lexicon: Lexicon,
}
