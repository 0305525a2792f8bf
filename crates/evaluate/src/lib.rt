//! Engines over a book: whether one fits, and the value of an expression on a row.
#![tactic(auto)]

ghost use Rattle.book.specs.Opened.{book_of};
ghost use Rattle.evaluate.specs.Evaluating.{Answers};
ghost use Rattle.evaluate.specs.Fitness.{FitsAll, suits, suits_at};
ghost use Rattle.plan.specs.Functions.{function_at};
ghost use Rattle.std.specs.Prelude.{◌≡◌, true};

use book::opened::OpenBook;
use engine::Engine;
use entries::node::{ExprId, PlanId};
use plan::fault::{Fault, Question, ask};
use value::Value;
use valuing::Row;

mod seeking;
#[cfg(test)]
mod tests;
mod valuing;

/// Whether a number is strict in the engine if the book declares it strict.
fn fits_at<E: Engine>(book: &OpenBook, engine: &E, number: u8) -> bool
    ensures { result ≡ suits_at (E.Engine.strict engine.now) number (function_at (book_of book.now).functions number) }
{
    let function = book.reader().function(number);
    function.is_none_or(|declared| !declared.strict || engine.is_strict(number as u32))
}

/// Whether every function that the book declares strict is strict in the engine.
pub fn fits<E: Engine>(book: &OpenBook, engine: &E) -> bool
    ensures value { result ≡ suits (E.Engine.strict engine.now) (book_of book.now).functions }
    ensures worlds { result ≡ true → FitsAll (book_of book.now).functions (E.Engine.meaning engine.now) }
{
    (0..64).all(|number| fits_at(book, engine, number))
}

/// The value of an expression on a row that has the fields of a node: one value for each field, and the text that
/// comes with the rows. The scratch has room for 256 values.
pub fn evaluate<E: Engine>(
    book: &OpenBook,
    engine: &E,
    e: ExprId,
    p: PlanId,
    values: &[Value],
    row: &[u8],
    scratch: &mut [Value],
) -> Result<Value, Fault>
    ensures { Answers (book_of book.now) (E.Engine.meaning engine.now) e.0 p.0 values.now row.now scratch.old scratch.new result }
{
    let reader = book.reader();
    ask(reader.terms().has(e), Question::Present)?;
    let fields = reader.node_fields(p)?;
    let row = Row {
        terms: reader.terms(),
        fields,
        values,
        text: row,
    };
    row.asked_value(engine, e, scratch)
}
