//! Versions of a node by swaps, and what the book says of its nodes: whether two have one origin, and which gives a column
//! its name.
use crate::stopped::Stopped;
use crate::telling::{made, refused, told};
use book::opened::OpenBook;
use entries::node::PlanId;
use std::io;

/// A version of the report: its projection is swapped for a version that a swap of the rows for themselves made. A swap
/// for the rows, which have another origin, is refused.
pub fn version(
    rt: &impl Print,
    book: &mut OpenBook,
    report: PlanId,
    later: PlanId,
    rows: PlanId,
) -> Result<PlanId, Stopped> {
    let again = made(
        rt,
        "swap the input of the projection for itself",
        book.swap(later, 0, rows),
    )?;
    let version = made(
        rt,
        "swap the input of the filter for that version of it",
        book.swap(report, 0, again),
    )?;
    told(
        rt,
        "swap the input of the filter for the limit, of another origin",
        book.swap(report, 0, rows),
    )?;
    Ok(version)
}

/// Tells whether two nodes have one origin.
pub fn compared(rt: &impl Print, book: &OpenBook, a: PlanId, b: PlanId) -> io::Result<()> {
    print!(rt; "the same report of nodes {} and {}: ", a.0, b.0)?;
    match book.same_report(a, b) {
        Ok(true) => println!(rt; "yes, they have one origin"),
        Ok(false) => println!(rt; "not promised, they have two origins"),
        Err(f) => refused(rt, f),
    }
}

/// Tells which projection at or below a node gives a column its name.
pub fn traced(rt: &impl Print, book: &OpenBook, p: PlanId, name: &str) -> io::Result<()> {
    print!(rt; "trace {name} from node {}: ", p.0)?;
    match book.reader().trace(p, name.as_bytes()) {
        Ok(Some(projection)) => println!(rt; "node {}", projection.0),
        Ok(None) => println!(rt; "none"),
        Err(f) => refused(rt, f),
    }
}
