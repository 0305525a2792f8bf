//! What one place of the tables holds.
pub use names::parts::Span;
use plan::code::Direction;

/// An expression, by its number.
// A number, since outside a book expressions are known by number. That it is there is a clause of each function: a number
// says nothing of the tables, which grow. A struct that borrows the tables holds it where several questions are asked of one
// thing (`Arguments`, `Asked`).
#[derive(Clone, Copy, PartialEq, Eq, Debug)]
pub struct ExprId(pub u32);

/// A node of a plan, by its number.
// As `ExprId`; a type of its own, so that neither is taken for the other.
#[derive(Clone, Copy, PartialEq, Eq, Debug)]
pub struct PlanId(pub u32);

/// A part of a table: the list table, or the field table.
// Not a `Span`: it counts entries, not bytes. A start and a length, since a table cannot lend a slice of itself to its own
// records; so that it is inside is a clause.
#[derive(Clone, Copy, PartialEq, Eq, Debug)]
pub struct Run {
    pub first: u32,
    pub count: u32,
}

/// A constant.
// Not `value`'s `Value`: a literal's text is always the book's.
#[derive(Clone, Copy)]
pub enum Literal {
    Null,
    Truth(bool),
    Whole(i64),
    Real(f64),
    Text(Span),
}

/// One node of an expression; a call's arguments stand in the list table.
#[derive(Clone, Copy)]
pub enum ExprNode {
    Constant(Literal),
    Reference(StoredField),
    Alias { inner: ExprId, field: StoredField },
    Call { function: u8, arguments: Run },
}

/// A node with the size of its tree and the length of its rendered name.
#[derive(Clone, Copy)]
pub struct ExprRecord {
    pub node: ExprNode,
    pub size: u32,
    pub width: u32,
}

/// One entry of a list.
#[derive(Clone, Copy, PartialEq, Eq, Debug)]
pub enum Entry {
    Expression(ExprId),
    Key(ExprId, Direction),
    Input(PlanId),
}

/// A column: its name, and of which relation it is, if that is said.
// No `==`: fields are equal by the bytes that their spans name, which `same_field` compares. That they are inside is a
// clause of each function: it is a fact about a text, which the field does not hold.
#[derive(Clone, Copy)]
pub struct StoredField {
    pub qualifier: Option<Span>,
    pub name: Span,
}
