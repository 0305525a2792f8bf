//! A small log through the report, row by row, and expressions of the program's own on its rows.
use crate::explain::{show_bytes, show_columns, show_expression};
use crate::stopped::Stopped;
use crate::telling::{made, refused};
use crate::{MISSING, PLUS};
use book::opened::OpenBook;
use engine::Engine;
use engine::arithmetic::Arithmetic;
use engine::pair::Pair;
use engine::records::{Entry, Records};
use entries::node::{ExprId, PlanId};
use evaluate::fits;
use reporting::{Outcome, Report, Valuing, is_kept, report_of};
use std::io;
use value::{Side, Text, Value, shown};

/// The text that comes with the log: the kinds of events.
const KINDS: &[u8] = b"spotjingle";

const SPOT: Text = Text {
    side: Side::Row,
    start: 0,
    len: 4,
};

const JINGLE: Text = Text {
    side: Side::Row,
    start: 4,
    len: 6,
};

/// The log: the record of each event, and the frame that it starts at.
// Fewer rows than the limit of the plan, which keeps them all.
const LOG: [[Value; 2]; 6] = [
    [Value::Record(0), Value::Whole(1500)],
    [Value::Record(1), Value::Whole(9000)],
    [Value::Record(2), Value::Whole(12000)],
    [Value::Record(3), Value::Whole(15000)],
    [Value::Record(4), Value::Whole(i64::MAX)],
    [Value::Record(5), Value::Whole(-75)],
];

/// The kind of a record.
fn kind<'a>(owner: u32, text: Text) -> Entry<'a> {
    Entry {
        owner,
        name: b"kind",
        value: Value::Text(text),
    }
}

/// Expressions on a row of the log that stand in no node.
#[derive(Clone, Copy)]
pub struct OwnExpressions {
    kind: ExprId,
    missing: ExprId,
    sum: ExprId,
    stop: ExprId,
}

/// The kind of an event, whether it is missing, a sum of more than 64 bits, and a column that the log has not.
pub fn make_own(
    rt: &impl Print,
    book: &mut OpenBook,
    kind: ExprId,
) -> Result<OwnExpressions, Stopped> {
    let missing = made(rt, "call missing", book.call(MISSING, &[kind]))?;
    let most = made(rt, "whole 9223372036854775807", book.whole(i64::MAX))?;
    let one = made(rt, "whole 1", book.whole(1))?;
    let sum = made(rt, "call plus", book.call(PLUS, &[most, one]))?;
    let stop = made(
        rt,
        "reference log.stop",
        book.reference(b"stop", Some(b"log")),
    )?;
    Ok(OwnExpressions {
        kind,
        missing,
        sum,
        stop,
    })
}

/// Prints what comes of the rows of a log.
#[derive(Drop)]
struct Showing<'a, P, E> {
    rt: &'a P,
    valuing: Valuing<'a, E>,
}

impl<P: Print, E: Engine> Showing<'_, P, E> {
    /// A text between quotes; one that reaches past the end counts as null.
    fn show_text(&self, v: Value) -> io::Result<()> {
        let book = self.valuing.book.reader();
        match shown(book.terms().bytes(), self.valuing.text, v) {
            Ok(bytes) => {
                print!(self.rt; "'")?;
                show_bytes(self.rt, bytes)?;
                print!(self.rt; "'")
            }
            Err(_) => print!(self.rt; "null"),
        }
    }

    fn show_value(&self, v: Value) -> io::Result<()> {
        match v {
            Value::Null => print!(self.rt; "null"),
            Value::Truth(b) => print!(self.rt; "{b}"),
            Value::Whole(n) => print!(self.rt; "{n}"),
            Value::Real(_) => print!(self.rt; "(real)"),
            Value::Text(_) => self.show_text(v),
            Value::Record(n) => print!(self.rt; "record {n}"),
        }
    }

    fn show_row(&self, row: &[Value]) -> io::Result<()> {
        print!(self.rt; "(")?;
        for (i, v) in row.iter().enumerate() {
            if i > 0 {
                print!(self.rt; ", ")?;
            }
            self.show_value(*v)?;
        }
        print!(self.rt; ")")
    }

    fn show_outcome(&self, outcome: Outcome) -> io::Result<()> {
        self.show_row(&[outcome.event, outcome.start])?;
        print!(self.rt; ", filter ")?;
        self.show_value(outcome.filter)?;
        let kept = if is_kept(outcome.filter) {
            "kept"
        } else {
            "not kept"
        };
        println!(self.rt; ", {kept}")
    }

    /// What the report makes of a row.
    fn show_reported(&self, report: Report, row: &[Value]) -> io::Result<()> {
        self.show_row(row)?;
        print!(self.rt; " gives ")?;
        match self.valuing.outcome(report, row) {
            Ok(outcome) => self.show_outcome(outcome),
            Err(f) => refused(self.rt, f),
        }
    }

    /// What an expression comes to on a row of a node.
    fn show_valued(&self, e: ExprId, p: PlanId, row: &[Value]) -> io::Result<()> {
        show_expression(self.rt, self.valuing.book, e)?;
        print!(self.rt; " on ")?;
        self.show_row(row)?;
        print!(self.rt; ": ")?;
        match self.valuing.value(e, p, row) {
            Ok(v) => {
                self.show_value(v)?;
                println!(self.rt; "")
            }
            Err(f) => refused(self.rt, f),
        }
    }

    fn show_heading(&self, report: Report) -> io::Result<()> {
        print!(self.rt; "(")?;
        show_columns(self.rt, self.valuing.book, report.input)?;
        print!(self.rt; ") gives (")?;
        show_columns(self.rt, self.valuing.book, report.projection)?;
        println!(self.rt; "), starts in frames")
    }

    fn show_report(&self, report: Report) -> io::Result<()> {
        self.show_heading(report)?;
        for row in &LOG {
            self.show_reported(report, row)?;
        }
        Ok(())
    }

    fn show_own(&self, own: OwnExpressions, p: PlanId) -> io::Result<()> {
        for row in &LOG {
            self.show_valued(own.kind, p, row)?;
        }
        self.show_valued(own.missing, p, &LOG[0])?;
        self.show_valued(own.missing, p, &LOG[3])?;
        self.show_valued(own.sum, p, &LOG[0])?;
        self.show_valued(own.stop, p, &LOG[0])
    }
}

/// Prints what comes of the log's rows: in a report, which is read out of the book, and by the program's own expressions.
// One lifetime for both references, since `Showing` holds both.
pub fn show_rows<'x>(
    rt: &'x impl Print,
    book: &'x OpenBook,
    p: PlanId,
    own: OwnExpressions,
) -> Result<(), Stopped> {
    let report = report_of(book, p)?;
    let entries = [
        kind(0, SPOT),
        kind(1, SPOT),
        kind(2, JINGLE),
        kind(4, SPOT),
        kind(5, SPOT),
    ];
    let engine = Pair {
        split: 5,
        first: Arithmetic,
        second: Records { entries: &entries },
    };
    println!(rt; "the engine fits the book: {}", fits(book, &engine))?;
    let showing = Showing {
        rt,
        valuing: Valuing {
            book,
            engine: &engine,
            text: KINDS,
        },
    };
    println!(rt; "")?;
    showing.show_own(own, report.input)?;
    println!(rt; "")?;
    showing.show_report(report)?;
    Ok(())
}
