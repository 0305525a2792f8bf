//! The kind of an event as a helper column, which a projection computes and a filter above it reads.
use crate::stopped::Stopped;
use crate::telling::made;
use crate::{EQUAL, GET_FIELD};
use book::opened::OpenBook;
use entries::node::{ExprId, PlanId};

/// The name of the helper column, with the prefix that is kept for such.
pub const HELPER: &str = "__datafusion_extracted_100000000";

/// The kind of an event.
pub fn kind_of(rt: &impl Print, book: &mut OpenBook, event: ExprId) -> Result<ExprId, Stopped> {
    let kind = made(rt, "text kind", book.text(b"kind"))?;
    made(rt, "call get_field", book.call(GET_FIELD, &[event, kind]))
}

/// The rows where the helper column says spot.
fn spots_of(rt: &impl Print, book: &mut OpenBook, rows: PlanId) -> Result<PlanId, Stopped> {
    let helper = made(
        rt,
        "reference to the helper column",
        book.reference(HELPER.as_bytes(), None),
    )?;
    let spot = made(rt, "text spot", book.text(b"spot"))?;
    let equal = made(rt, "call equal", book.call(EQUAL, &[helper, spot]))?;
    made(rt, "filter", book.filter(rows, equal))
}

/// Spots of the log by a helper column below the filter, and the columns of the log above it.
pub fn helped_spots(
    rt: &impl Print,
    book: &mut OpenBook,
    rows: PlanId,
    event: ExprId,
    kind: ExprId,
) -> Result<PlanId, Stopped> {
    let helper = made(
        rt,
        "alias of the helper column",
        book.alias(kind, HELPER.as_bytes(), None),
    )?;
    let start = made(
        rt,
        "reference log.start",
        book.reference(b"start", Some(b"log")),
    )?;
    let kinds = made(
        rt,
        "projection with it",
        book.projection(rows, &[helper, event, start]),
    )?;
    let spots = spots_of(rt, book, kinds)?;
    made(
        rt,
        "projection without it",
        book.projection(spots, &[event, start]),
    )
}
