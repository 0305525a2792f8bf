//! How much the tables of a book hold.
use terms::marks::Marks as TermMarks;

/// One record of all counts, so that the tables can be put back to them.
#[derive(Clone, Copy, PartialEq, Eq, Debug)]
pub struct Marks {
    pub terms: TermMarks,
    pub fields: usize,
    pub plans: usize,
}
