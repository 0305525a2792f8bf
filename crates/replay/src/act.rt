//! A call as a value, and what it is answered.
use entries::node::{ExprId, PlanId};
use plan::fault::Fault;
use stored::node::Key;

/// A call of an open book, with what the caller gives.
// Not NewNode: a call as a value also makes expressions and swaps, and gives its codes as numbers.
#[derive(Clone, Copy)]
pub enum Act<'a> {
    Null,
    Truth(bool),
    Whole(i64),
    Real(f64),
    Text(&'a [u8]),
    Reference {
        name: &'a [u8],
        qualifier: Option<&'a [u8]>,
    },
    Alias {
        inner: ExprId,
        name: &'a [u8],
        qualifier: Option<&'a [u8]>,
    },
    Call {
        function: u8,
        arguments: &'a [ExprId],
    },
    Table {
        qualifier: &'a [u8],
        names: &'a [u8],
    },
    Projection {
        input: PlanId,
        list: &'a [ExprId],
    },
    Filter {
        input: PlanId,
        predicate: ExprId,
    },
    Sort {
        input: PlanId,
        keys: &'a [Key],
    },
    Limit {
        input: PlanId,
        skip: u32,
        count: u32,
    },
    Aggregate {
        input: PlanId,
        groups: &'a [ExprId],
        totals: &'a [ExprId],
    },
    // The kind is a number, since a call as a value takes the code as the caller gives it.
    Join {
        kind: u8,
        left: PlanId,
        right: PlanId,
        on: &'a [ExprId],
    },
    SubqueryAlias {
        input: PlanId,
        name: &'a [u8],
    },
    Union(&'a [PlanId]),
    Swap {
        node: PlanId,
        position: u32,
        input: PlanId,
    },
}

/// What a call is answered: the number of the expression or of the node that was made, or the refusal.
pub type Answer = Result<u32, Fault>;
