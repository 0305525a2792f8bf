//! The codes that public calls take as numbers.
// As numbers, since outside a book codes and refusals are known by number; one that is no code is refused with question 3.
ghost use Rattle.plan.specs.Codes.{direction_of, join_kind_of, rule_of};
ghost use Rattle.std.specs.Prelude.{◌≡◌, ok_or};

use std::error::Error;
use std::fmt;

/// How a declared function's calls are placed.
#[derive(Clone, Copy, PartialEq, Eq, Debug)]
pub enum Rule {
    /// 0: a call is kept where it is.
    Stay,
    /// 1: a call is moved if its first argument is a column or moved itself and the others are literals.
    FirstColumn,
    /// 2: a call is moved if no argument is kept and one is no literal.
    AnyColumn,
    /// 3: a call is always moved.
    Always,
    /// 4: a call is a total of an Aggregate.
    Total,
}

/// How a Join pairs the rows of its two inputs.
#[derive(Clone, Copy, PartialEq, Eq, Debug)]
pub enum JoinKind {
    Inner,
    Left,
    Right,
    Full,
    LeftSemi,
    LeftAnti,
    RightSemi,
    RightAnti,
}

/// The order that a Sort key asks for.
#[derive(Clone, Copy, PartialEq, Eq, Debug)]
pub enum Direction {
    AscendingNullsFirst,
    AscendingNullsLast,
    DescendingNullsFirst,
    DescendingNullsLast,
}

/// A number that is no code of the kind asked for.
#[derive(Clone, Copy, PartialEq, Eq, Debug)]
pub struct UnknownCode(pub u8);

impl fmt::Display for UnknownCode {
    fn fmt<W: fmt::Write>(&self, f: &mut fmt::Formatter<W>) -> fmt::Result {
        write!(f, "no code has the number {}", self.0)
    }
}

impl Error for UnknownCode {}

// An impl for each enum: Rust allows none for all of them at once, and so each number stands beside its variant.

impl TryFrom<u8> for Rule {
    type Error = UnknownCode;

    ghost try_from_gives = { λ code r. r ≡ ok_or (rule_of code) (record { 0 = code }) };

    fn try_from(code: u8) -> Result<Self, UnknownCode> {
        match code {
            0 => Ok(Rule::Stay),
            1 => Ok(Rule::FirstColumn),
            2 => Ok(Rule::AnyColumn),
            3 => Ok(Rule::Always),
            4 => Ok(Rule::Total),
            _ => Err(UnknownCode(code)),
        }
    }
}

impl TryFrom<u8> for JoinKind {
    type Error = UnknownCode;

    ghost try_from_gives = { λ code r. r ≡ ok_or (join_kind_of code) (record { 0 = code }) };

    fn try_from(code: u8) -> Result<Self, UnknownCode> {
        match code {
            0 => Ok(JoinKind::Inner),
            1 => Ok(JoinKind::Left),
            2 => Ok(JoinKind::Right),
            3 => Ok(JoinKind::Full),
            4 => Ok(JoinKind::LeftSemi),
            5 => Ok(JoinKind::LeftAnti),
            6 => Ok(JoinKind::RightSemi),
            7 => Ok(JoinKind::RightAnti),
            _ => Err(UnknownCode(code)),
        }
    }
}

impl TryFrom<u8> for Direction {
    type Error = UnknownCode;

    ghost try_from_gives = { λ code r. r ≡ ok_or (direction_of code) (record { 0 = code }) };

    fn try_from(code: u8) -> Result<Self, UnknownCode> {
        match code {
            0 => Ok(Direction::AscendingNullsFirst),
            1 => Ok(Direction::AscendingNullsLast),
            2 => Ok(Direction::DescendingNullsFirst),
            3 => Ok(Direction::DescendingNullsLast),
            _ => Err(UnknownCode(code)),
        }
    }
}
