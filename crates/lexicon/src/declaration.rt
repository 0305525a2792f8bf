//! What one number of the declared functions holds.
use names::parts::Span;
use plan::code::Rule;

/// A declared function.
// No `==`: its name is equal to another by the bytes that its span names.
#[derive(Clone, Copy)]
pub struct Declaration {
    pub name: Span,
    pub arity: u8,
    pub rule: Rule,
    pub strict: bool,
}
