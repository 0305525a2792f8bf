//! One line for each call: what was asked for, and what was answered.
ghost use Rattle.std.specs.Prelude.{◌≡◌, Ok, IfOk};

use crate::stopped::Stopped;
use anyhow::anyhow;
use entries::node::{ExprId, PlanId};
use plan::fault::Fault;
use std::io;

/// What a call makes, and a book knows by a number.
pub trait Numbered: Copy {
    const WORD: &'static str;

    fn number(self) -> u32;
}

impl Numbered for ExprId {
    const WORD: &'static str = "expression";

    fn number(self) -> u32 {
        self.0
    }
}

impl Numbered for PlanId {
    const WORD: &'static str = "node";

    fn number(self) -> u32 {
        self.0
    }
}

/// A list of calls is answered numbers only, of expressions and of nodes.
impl Numbered for u32 {
    const WORD: &'static str = "made number";

    fn number(self) -> u32 {
        self
    }
}

pub fn refused(rt: &impl Print, f: Fault) -> io::Result<()> {
    println!(rt; "refused: {f}")
}

pub fn declared(rt: &impl Print, what: &str, answer: Result<(), Fault>) -> io::Result<()> {
    print!(rt; "declare {what}: ")?;
    match answer {
        Ok(()) => println!(rt; "declared"),
        Err(f) => refused(rt, f),
    }
}

/// Tells what a call was answered, whichever it was.
pub fn told<T: Numbered>(rt: &impl Print, what: &str, answer: Result<T, Fault>) -> io::Result<()> {
    print!(rt; "{what}: ")?;
    match answer {
        Ok(made) => println!(rt; "{} {}", T::WORD, made.number()),
        Err(f) => refused(rt, f),
    }
}

/// Tells what a call was answered, and gives what it made; a refusal ends the program.
pub fn made<T: Numbered>(
    rt: &impl Print,
    what: &str,
    answer: Result<T, Fault>,
) -> Result<T, Stopped>
    ensures { IfOk result (λ made. answer ≡ Ok made) }
{
    told(rt, what, answer)?;
    answer.map_err(|_| Stopped::Other(anyhow!("refused: {what}")))
}
