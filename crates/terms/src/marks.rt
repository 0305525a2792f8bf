//! How much the tables of expressions hold.

/// Counts of expressions, list entries and bytes of text, so that the tables can be put back to them.
#[derive(Clone, Copy, PartialEq, Eq, Debug)]
pub struct Marks {
    pub exprs: usize,
    pub entries: usize,
    pub bytes: usize,
}
