//! Builds a broadcaster's report in a book, and prints each call with its answer, the plan, three refusals, the report with
//! its bookings, versions of it by swaps and by a list of calls, a helper column, what comes of the rows of a small log, and
//! what an extract answers.
#![tactic(auto)]

use book::declaration::Book;
use book::opened::OpenBook;
use bookings::{booked, latest_first};
use entries::node::{ExprId, PlanId};
use explain::explain;
use extracted::show_extracted;
use helper::{HELPER, helped_spots, kind_of};
use listing::perform_list;
use log_rows::{make_own, show_rows};
use std::io;
use stopped::Stopped;
use telling::{declared, made, told};
use versions::{compared, traced, version};

mod bookings;
mod explain;
mod extracted;
mod helper;
mod listing;
mod log_rows;
mod stopped;
mod telling;
mod versions;

const EQUAL: u8 = 0;

const PLUS: u8 = 1;

const MISSING: u8 = 4;

const GET_FIELD: u8 = 5;

fn declare(rt: &impl Print, book: &mut Book) -> io::Result<()> {
    declared(
        rt,
        "0 equal, 2 arguments, rule 0, strict",
        book.declare(EQUAL, b"equal", 2, 0, true),
    )?;
    declared(
        rt,
        "1 plus, 2 arguments, rule 0, strict",
        book.declare(PLUS, b"plus", 2, 0, true),
    )?;
    declared(
        rt,
        "4 missing, 1 argument, rule 2, not strict",
        book.declare(MISSING, b"missing", 1, 2, false),
    )?;
    declared(
        rt,
        "5 get_field, 2 arguments, rule 1, strict",
        book.declare(GET_FIELD, b"get_field", 2, 1, true),
    )
}

/// A hundred rows of the log.
// `rt` and `book` stay two parameters, here and below: in a struct each call would read
// `made(self.rt, .., self.book.limit(..))`, since `self.made(.., self.book.limit(..))` borrows the struct twice.
fn hundred_rows(rt: &impl Print, book: &mut OpenBook) -> Result<PlanId, Stopped> {
    let log = made(
        rt,
        "table log (event, start)",
        book.table(b"log", b"event,start"),
    )?;
    made(rt, "limit to 100 rows", book.limit(log, 0, 100))
}

/// The list that adds 50 to the start, under the same name.
fn later_start(rt: &impl Print, book: &mut OpenBook, rows: PlanId) -> Result<PlanId, Stopped> {
    let event = made(
        rt,
        "reference log.event",
        book.reference(b"event", Some(b"log")),
    )?;
    let start = made(
        rt,
        "reference log.start",
        book.reference(b"start", Some(b"log")),
    )?;
    let fifty = made(rt, "whole 50", book.whole(50))?;
    let sum = made(rt, "call plus", book.call(PLUS, &[start, fifty]))?;
    let later = made(rt, "alias start", book.alias(sum, b"start", None))?;
    made(rt, "projection", book.projection(rows, &[event, later]))
}

/// Events whose kind is a spot.
fn spots(rt: &impl Print, book: &mut OpenBook, rows: PlanId) -> Result<PlanId, Stopped> {
    let event = made(rt, "reference event", book.reference(b"event", None))?;
    let kind = made(rt, "text kind", book.text(b"kind"))?;
    let field = made(rt, "call get_field", book.call(GET_FIELD, &[event, kind]))?;
    let spot = made(rt, "text spot", book.text(b"spot"))?;
    let equal = made(rt, "call equal", book.call(EQUAL, &[field, spot]))?;
    made(rt, "filter", book.filter(rows, equal))
}

fn refusals(rt: &impl Print, book: &mut OpenBook, rows: PlanId) -> Result<(), Stopped> {
    told(
        rt,
        "reference with a comma in its name",
        book.reference(b"event,start", None),
    )?;
    told(
        rt,
        "filter by an expression that is not there",
        book.filter(rows, ExprId(99)),
    )?;
    let stop = made(rt, "reference stop", book.reference(b"stop", None))?;
    told(
        rt,
        "projection of a column that is not there",
        book.projection(rows, &[stop]),
    )?;
    Ok(())
}

/// The report with its bookings, and the sort of that, built and printed.
fn show_bookings(
    rt: &impl Print,
    book: &mut OpenBook,
    report: PlanId,
) -> Result<(PlanId, PlanId), Stopped> {
    let joined = booked(rt, book, report)?;
    let sorted = latest_first(rt, book, joined)?;
    println!(rt; "")?;
    explain(rt, book, sorted)?;
    Ok((joined, sorted))
}

/// A version of the report, built and printed, and what the book says of nodes.
fn show_version(
    rt: &impl Print,
    book: &mut OpenBook,
    report: PlanId,
    later: PlanId,
    rows: PlanId,
) -> Result<PlanId, Stopped> {
    let version = version(rt, book, report, later, rows)?;
    println!(rt; "")?;
    explain(rt, book, version)?;
    println!(rt; "")?;
    compared(rt, book, report, version)?;
    compared(rt, book, report, later)?;
    traced(rt, book, version, "start")?;
    traced(rt, book, version, "event")?;
    Ok(version)
}

/// Spots by a helper column, built, printed and traced; the expression of the kind.
fn show_helper(rt: &impl Print, book: &mut OpenBook, rows: PlanId) -> Result<ExprId, Stopped> {
    let event = made(
        rt,
        "reference log.event",
        book.reference(b"event", Some(b"log")),
    )?;
    let kind = kind_of(rt, book, event)?;
    let helped = helped_spots(rt, book, rows, event, kind)?;
    println!(rt; "")?;
    explain(rt, book, helped)?;
    println!(rt; "")?;
    traced(rt, book, helped, HELPER)?;
    Ok(kind)
}

fn main(rt: HostRuntime) -> Result<(), Stopped> {
    let mut book = Book::new();
    declare(&rt, &mut book)?;
    let mut open = book.open();
    println!(rt; "open")?;
    let rows = hundred_rows(&rt, &mut open)?;
    let later = later_start(&rt, &mut open, rows)?;
    let report = spots(&rt, &mut open, later)?;
    println!(rt; "")?;
    explain(&rt, &open, report)?;
    println!(rt; "")?;
    refusals(&rt, &mut open, report)?;
    println!(rt; "")?;
    let (joined, sorted) = show_bookings(&rt, &mut open, report)?;
    println!(rt; "")?;
    let version = show_version(&rt, &mut open, report, later, rows)?;
    println!(rt; "")?;
    perform_list(&rt, &mut open, joined, sorted, version)?;
    println!(rt; "")?;
    let kind = show_helper(&rt, &mut open, rows)?;
    println!(rt; "")?;
    let own = make_own(&rt, &mut open, kind)?;
    println!(rt; "")?;
    show_rows(&rt, &open, report, own)?;
    println!(rt; "")?;
    show_extracted(&rt, &mut open, report, sorted, later)?;
    Ok(())
}
