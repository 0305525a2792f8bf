//! The report with the client of each event, the latest start first.
use crate::EQUAL;
use crate::stopped::Stopped;
use crate::telling::made;
use book::opened::OpenBook;
use entries::node::PlanId;
use stored::node::Key;

/// The kind of a Left join.
const LEFT: u8 = 1;

/// The direction of a descending key, nulls last.
const LATEST_FIRST: u8 = 3;

/// Each row of the report with its bookings; one without a booking stays, with nulls.
pub fn booked(rt: &impl Print, book: &mut OpenBook, report: PlanId) -> Result<PlanId, Stopped> {
    let bookings = made(
        rt,
        "table booking (event, client)",
        book.table(b"booking", b"event,client"),
    )?;
    let event = made(
        rt,
        "reference log.event",
        book.reference(b"event", Some(b"log")),
    )?;
    let sold = made(
        rt,
        "reference booking.event",
        book.reference(b"event", Some(b"booking")),
    )?;
    let same = made(rt, "call equal", book.call(EQUAL, &[event, sold]))?;
    made(rt, "left join", book.join(LEFT, report, bookings, &[same]))
}

/// The rows by start, the latest first and those without a start last.
pub fn latest_first(rt: &impl Print, book: &mut OpenBook, rows: PlanId) -> Result<PlanId, Stopped> {
    let start = made(rt, "reference start", book.reference(b"start", None))?;
    let key = Key {
        by: start,
        direction: LATEST_FIRST,
    };
    made(rt, "sort", book.sort(rows, &[key]))
}
