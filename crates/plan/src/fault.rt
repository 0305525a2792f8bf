//! Why a call is refused: the question that was answered no, the stage and the level.
ghost use Rattle.plan.specs.Faults.{Decided, question_number, refusal, stage_number};
ghost use Rattle.plan.specs.declared.fault.Question.TheVariants.{Bounded};
ghost use Rattle.std.specs.Prelude.{◌≡◌};

use crate::code::UnknownCode;
use std::error::Error;
use std::fmt;

/// The questions that a call is asked, in their order: the first no decides.
#[derive(Clone, Copy, PartialEq, Eq, Debug)]
pub enum Question {
    /// Does each number given stand in the book?
    Present = 1,
    /// Are names and text literals well formed?
    Named = 2,
    /// Do counts, positions and codes keep their bounds?
    Bounded = 3,
    /// Does a total stand only among an Aggregate's totals?
    Placed = 4,
    /// Do a swap's old and new input have one origin?
    SameOrigin = 5,
    /// Does each reference resolve?
    Resolved = 6,
    /// Is each field list lawful?
    Lawful = 7,
    /// Do fields, trees and rendered names keep their limits?
    Limited = 8,
    /// Is there space?
    Space = 9,
}

/// What was being made.
#[derive(Clone, Copy, PartialEq, Eq, Debug)]
pub enum Stage {
    /// The caller's own call.
    Call = 1,
    /// An extraction projection.
    Extraction = 2,
    /// A merge.
    Merge = 3,
    /// A rebuilt node.
    Rebuilt = 4,
    /// A recovery.
    Recovery = 5,
    /// A closing.
    Closing = 6,
}

/// A refusal.
#[derive(Clone, Copy, PartialEq, Eq, Debug)]
pub struct Fault {
    pub question: Question,
    pub stage: Stage,
    pub level: u8,
}

/// The number that a refusal is known by.
impl From<Question> for u8 {
    ghost from_gives = { λ q n. n ≡ question_number q };

    fn from(question: Question) -> u8 {
        question as u8
    }
}

/// The number that a stage is known by.
impl From<Stage> for u8 {
    ghost from_gives = { λ s n. n ≡ stage_number s };

    fn from(stage: Stage) -> u8 {
        stage as u8
    }
}

impl Question {
    /// The refusal of a caller's own call by this question: stage 1, level 0.
    pub fn refusal(self) -> Fault
        ensures { result ≡ refusal self }
    {
        Fault {
            question: self,
            stage: Stage::Call,
            level: 0,
        }
    }
}

/// A number that is no code is refused by question 3.
impl From<UnknownCode> for Fault {
    ghost from_gives = { λ _ f. f ≡ refusal Bounded };

    fn from(_unknown: UnknownCode) -> Fault {
        Question::Bounded.refusal()
    }
}

impl fmt::Display for Fault {
    fn fmt<W: fmt::Write>(&self, f: &mut fmt::Formatter<W>) -> fmt::Result {
        let question = u8::from(self.question);
        let stage = u8::from(self.stage);
        write!(f, "{question}, stage {stage}, level {}", self.level)
    }
}

impl Error for Fault {}

/// A question of a building call: refused at stage 1, level 0, where the answer is no.
pub fn ask(granted: bool, question: Question) -> Result<(), Fault>
    ensures { Decided granted question result }
{
    if granted {
        return Ok(());
    }
    Err(question.refusal())
}
