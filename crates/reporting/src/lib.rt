//! What the report makes of a row: its filter and its projection are read out of the book and valued.
#![tactic(auto)]

ghost use Rattle.book.specs.Opened.{book_of};
ghost use Rattle.evaluate.specs.Evaluating.{asked};
ghost use Rattle.plan.specs.Calls.{below};
ghost use Rattle.plan.specs.Faults.{Settled};
ghost use Rattle.plan.specs.Model.{count_of};
ghost use Rattle.plan.specs.Values.{is_true};
ghost use Rattle.reporting.specs.Reporting.{Gives, Reads, ValueOf, column_asked, column_of, is_report, outcome_asked};
ghost use Rattle.std.specs.Prelude.{◌≡◌, ℕ, List, IfOk, is_ok, length};
ghost use Rattle.tables.specs.Holding.{fields_at, tree_in, trees_in, view_in};
ghost use Rattle.stored.specs.Stored.{build_plan_node};
ghost use Rattle.value.specs.Meanings.{meaning_of};

use anyhow::bail;
use book::opened::OpenBook;
use engine::Engine;
use entries::node::{ExprId, PlanId};
use evaluate::evaluate;
use plan::fault::Fault;
use stored::node::{PlanNode, Run};
use value::Value;

/// The report as the book has it: a filter over a projection.
#[derive(Clone, Copy)]
pub struct Report {
    pub predicate: ExprId,
    pub projection: PlanId,
    pub list: Run,
    pub input: PlanId,
}

/// What the report makes of a row: the two columns of its projection, and what its filter says of them.
#[derive(Clone, Copy)]
pub struct Outcome {
    pub event: Value,
    pub start: Value,
    pub filter: Value,
}

fn node_of(book: &OpenBook, p: PlanId) -> anyhow::Result<PlanNode>
    ensures there { is_ok result ≡ below (count_of (book_of book.now)) p.0 }
    ensures node { IfOk result (λ node. tree_in book.now.tables p.0 ≡ build_plan_node (view_in book.now.tables) (fields_at book.now.tables p.0) (trees_in book.now.tables) node) }
{
    match book.reader().plan(p) {
        Ok(record) => Ok(record.node),
        Err(f) => bail!("node {}: refused: {f}", p.0),
    }
}

/// Reads a report out of the book.
pub fn report_of(book: &OpenBook, p: PlanId) -> anyhow::Result<Report>
    ensures there { is_ok result ≡ is_report (tree_in book.now.tables p.0) }
    ensures read { IfOk result (λ report. Reads book.now p.0 report) }
{
    let PlanNode::Filter {
        input: projection,
        predicate,
    } = node_of(book, p)?
    else {
        bail!("node {} is no filter", p.0);
    };
    let PlanNode::Projection { input, list } = node_of(book, projection)? else {
        bail!("node {} is no projection", projection.0);
    };
    Ok(Report {
        predicate,
        projection,
        list,
        input,
    })
}

/// A filter keeps a row where it is true, and neither where it is false nor where it is null.
pub fn is_kept(filter: Value) -> bool
    ensures { (book row : List ℕ) → result ≡ is_true (meaning_of book row filter) }
{
    matches!(filter, Value::Truth(true))
}

/// A book with an engine for its functions, and the text that comes with the rows.
#[derive(Drop)]
pub struct Valuing<'a, E> {
    pub book: &'a OpenBook,
    pub engine: &'a E,
    pub text: &'a [u8],
}

impl<E: Engine> Valuing<'_, E> {
    /// The value of an expression on a row of a node.
    pub fn value(&self, e: ExprId, p: PlanId, row: &[Value]) -> Result<Value, Fault>
        ensures { Settled (asked (book_of self.now.book.now) e.0 p.0 (length row.now) 256) (ValueOf (book_of self.now.book.now) (E.Engine.meaning self.now.engine.now) self.now.text.now e.0 p.0 row.now) (Unit {0}) result }
    {
        let mut scratch = [Value::Null; 256];
        evaluate(self.book, self.engine, e, p, row, self.text, &mut scratch)
    }

    /// The value of a column of the projection.
    fn column(&self, report: Report, i: u32, row: &[Value]) -> Result<Value, Fault>
        ensures { Settled (column_asked self.now.book.now report i (length row.now)) (ValueOf (book_of self.now.book.now) (E.Engine.meaning self.now.engine.now) self.now.text.now (column_of self.now.book.now report i) report.input.0 row.now) (Unit {0}) result }
    {
        let e = self.book.reader().listed(report.list, i)?;
        self.value(e, report.input, row)
    }

    /// What the report makes of a row of its projection's input.
    // A projection of another width is refused: by its list if it is narrower, by the filter's row if it is wider.
    pub fn outcome(&self, report: Report, row: &[Value]) -> Result<Outcome, Fault>
        ensures { Settled (outcome_asked self.now.book.now report (length row.now)) (Gives self.now.book.now (E.Engine.meaning self.now.engine.now) self.now.text.now report row.now) (Unit {0}) result }
    {
        let event = self.column(report, 0, row)?;
        let start = self.column(report, 1, row)?;
        let filter = self.value(report.predicate, report.projection, &[event, start])?;
        Ok(Outcome {
            event,
            start,
            filter,
        })
    }
}
