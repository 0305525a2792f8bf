//! Nodes with what is Marked taken out of them.
use crate::explain::explain;
use crate::telling::refused;
use crate::versions::compared;
use book::opened::OpenBook;
use entries::node::PlanId;
use std::io;

/// Tells what an extract is answered, and shows the new node.
fn show_one(rt: &impl Print, book: &mut OpenBook, node: PlanId) -> io::Result<()> {
    print!(rt; "extract of node {}: ", node.0)?;
    match book.extract(node) {
        Ok(Some(new)) => {
            println!(rt; "node {}", new.0)?;
            println!(rt; "")?;
            explain(rt, book, new)?;
            println!(rt; "")?;
            compared(rt, book, node, new)
        }
        Ok(None) => println!(rt; "nothing changes"),
        Err(f) => refused(rt, f),
    }
}

/// Extracts of the report, of the sort of its bookings, of a projection, and of a node that is not there.
pub fn show_extracted(
    rt: &impl Print,
    book: &mut OpenBook,
    report: PlanId,
    sorted: PlanId,
    later: PlanId,
) -> io::Result<()> {
    show_one(rt, book, report)?;
    show_one(rt, book, sorted)?;
    show_one(rt, book, later)?;
    show_one(rt, book, PlanId(99))
}
