//! What one place of the plan table holds, and what a caller asks to be made.
ghost use Rattle.plan.specs.Codes.{direction_of};
ghost use Rattle.std.specs.Prelude.{◌≡◌, None, Some, MatchResult};

pub use entries::node::Run;
use entries::node::{ExprId, PlanId, Span};
use plan::code::{Direction, JoinKind, UnknownCode};

/// One node of a plan; its lists stand in the list table. A Table keeps its own number.
// No `==`: nodes are equal by the trees that they stand for.
#[derive(Clone, Copy, Debug)]
pub enum PlanNode {
    Table {
        number: PlanId,
        qualifier: Span,
    },
    Projection {
        input: PlanId,
        list: Run,
    },
    Filter {
        input: PlanId,
        predicate: ExprId,
    },
    Sort {
        input: PlanId,
        keys: Run,
    },
    Limit {
        input: PlanId,
        skip: u32,
        count: u32,
    },
    Aggregate {
        input: PlanId,
        groups: Run,
        totals: Run,
    },
    Join {
        kind: JoinKind,
        left: PlanId,
        right: PlanId,
        on: Run,
    },
    SubqueryAlias {
        input: PlanId,
        name: Span,
    },
    Union {
        inputs: Run,
    },
}

/// A node with its fields, the size of its tree, and its origin.
#[derive(Clone, Copy, Debug)]
pub struct PlanRecord {
    pub node: PlanNode,
    pub fields: Run,
    pub size: u32,
    pub origin: PlanId,
}

/// A Sort key.
#[derive(Clone, Copy, PartialEq, Eq, Debug)]
pub struct SortKey {
    pub by: ExprId,
    pub direction: Direction,
}

/// A Sort key as a caller gives it, with the number of its direction.
// A number, since outside a book codes and refusals are known by number. Inside, a SortKey holds the direction itself.
#[derive(Clone, Copy, PartialEq, Eq, Debug)]
pub struct Key {
    pub by: ExprId,
    pub direction: u8,
}

impl TryFrom<Key> for SortKey {
    type Error = UnknownCode;

    ghost try_from_gives = { λ key r. MatchResult r
        (λ sort_key. (sort_key.by ≡ key.by) × (direction_of key.direction ≡ Some sort_key.direction))
        (λ unknown. (unknown.0 ≡ key.direction) × (direction_of key.direction ≡ None)) };

    fn try_from(key: Key) -> Result<Self, UnknownCode> {
        Ok(SortKey {
            by: key.by,
            direction: Direction::try_from(key.direction)?,
        })
    }
}

/// A node that is to be made.
// Not one generic with PlanNode: four parameters, for lists, keys, inputs and names, and a Table's variants differ: a PlanNode
// keeps its number, not its names.
#[derive(Clone, Copy)]
pub enum NewNode<'a> {
    Table {
        qualifier: &'a [u8],
        names: &'a [u8],
    },
    Projection {
        input: PlanId,
        list: &'a [ExprId],
    },
    Filter {
        input: PlanId,
        predicate: ExprId,
    },
    Sort {
        input: PlanId,
        keys: &'a [SortKey],
    },
    Limit {
        input: PlanId,
        skip: u32,
        count: u32,
    },
    Aggregate {
        input: PlanId,
        groups: &'a [ExprId],
        totals: &'a [ExprId],
    },
    Join {
        kind: JoinKind,
        left: PlanId,
        right: PlanId,
        on: &'a [ExprId],
    },
    SubqueryAlias {
        input: PlanId,
        name: &'a [u8],
    },
    Union {
        inputs: &'a [PlanId],
    },
}
