//! Performing calls that are given as values.
ghost use Rattle.std.specs.Prelude.{◌≡◌, min, length, drop};
ghost use Rattle.book.specs.Opened.{book_of};
ghost use Rattle.replay.specs.Acts.{answer_of, request_of, steps_of};
ghost use Rattle.rewriting.specs.Book.{Agree, Answers, Law, Run};

use crate::act::{Act, Answer};
use book::opened::OpenBook;

/// Performs one call.
pub fn perform(book: &mut OpenBook, act: Act<'_>) -> Answer
    ensures { Answers (book_of book.old) (request_of act.entry) (answer_of result) (book_of book.new) }
{
    // One arm for each call: a call as a value is matched here, and only here.
    match act {
        Act::Null => book.null().map(|e| e.0),
        Act::Truth(b) => book.truth(b).map(|e| e.0),
        Act::Whole(n) => book.whole(n).map(|e| e.0),
        Act::Real(x) => book.real(x).map(|e| e.0),
        Act::Text(bytes) => book.text(bytes).map(|e| e.0),
        Act::Reference { name, qualifier } => book.reference(name, qualifier).map(|e| e.0),
        Act::Alias {
            inner,
            name,
            qualifier,
        } => book.alias(inner, name, qualifier).map(|e| e.0),
        Act::Call {
            function,
            arguments,
        } => book.call(function, arguments).map(|e| e.0),
        Act::Table { qualifier, names } => book.table(qualifier, names).map(|p| p.0),
        Act::Projection { input, list } => book.projection(input, list).map(|p| p.0),
        Act::Filter { input, predicate } => book.filter(input, predicate).map(|p| p.0),
        Act::Sort { input, keys } => book.sort(input, keys).map(|p| p.0),
        Act::Limit { input, skip, count } => book.limit(input, skip, count).map(|p| p.0),
        Act::Aggregate {
            input,
            groups,
            totals,
        } => book.aggregate(input, groups, totals).map(|p| p.0),
        Act::Join {
            kind,
            left,
            right,
            on,
        } => book.join(kind, left, right, on).map(|p| p.0),
        Act::SubqueryAlias { input, name } => book.subquery_alias(input, name).map(|p| p.0),
        Act::Union(inputs) => book.union(inputs).map(|p| p.0),
        Act::Swap {
            node,
            position,
            input,
        } => book.swap(node, position, input).map(|p| p.0),
    }
}

/// Performs calls one after the other, whatever they are answered, as many as there are places for answers, and writes each
/// answer at the place of its call. The result says how many were performed.
pub fn replay(book: &mut OpenBook, acts: &[Act<'_>], answers: &mut [Answer]) -> usize
    ensures done { result ≡ min (length acts.now) (length answers.old) }
    ensures run { Run (book_of book.old) (steps_of acts.now answers.new) (book_of book.new) }
    ensures kept { drop result answers.new ≡ drop result answers.old }
    ensures agree { Agree (book_of book.new) }
    ensures law { Law }
{
    let count = acts.len().min(answers.len());
    // Not a zip with `answers.iter_mut()`: a proof knows nothing of what is written through an adapter's items.
    for (i, act) in acts[..count].iter().enumerate() {
        answers[i] = perform(book, *act);
    }
    count
}
