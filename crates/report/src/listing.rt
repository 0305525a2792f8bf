//! A list of calls, performed one after the other whatever they are answered.
ghost use Rattle.book.specs.Opened.{book_of};
ghost use Rattle.rewriting.specs.Book.{Agree, Law};

use crate::telling::told;
use crate::versions::compared;
use book::opened::OpenBook;
use entries::node::PlanId;
use replay::act::{Act, Answer};
use replay::performing::replay;
use std::io;

/// What the calls of the list ask for, in their order.
const ASKED: [&str; 3] = [
    "swap the left input of the join for the version",
    "swap its right input for the version, of another origin",
    "limit the sort to 10 rows",
];

/// Goes on from the report with its bookings by a list of calls, and tells what each was answered.
pub fn perform_list(
    rt: &impl Print,
    book: &mut OpenBook,
    joined: PlanId,
    sorted: PlanId,
    version: PlanId,
) -> io::Result<()>
    ensures agree { Agree (book_of book.new) }
    ensures law { Law }
{
    let acts = [
        Act::Swap {
            node: joined,
            position: 0,
            input: version,
        },
        Act::Swap {
            node: joined,
            position: 1,
            input: version,
        },
        Act::Limit {
            input: sorted,
            skip: 0,
            count: 10,
        },
    ];
    let mut answers: [Answer; 3] = [Ok(0); 3];
    let performed = replay(book, &acts, &mut answers);
    println!(rt; "a list of calls: {performed} performed")?;
    for (what, answer) in ASKED.iter().zip(&answers).take(performed) {
        told(rt, what, *answer)?;
    }
    match answers[0] {
        Ok(number) => compared(rt, book, joined, PlanId(number)),
        Err(_) => Ok(()),
    }
}
