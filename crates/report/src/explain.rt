//! A plan as an indented tree, each node with its fields and its origin.
use book::opened::OpenBook;
use entries::node::{Entry, ExprId, ExprNode, Literal, PlanId, Span, StoredField};
use looking::reader::Reader;
use plan::code::{Direction, JoinKind};
use std::io;
use std::str::from_utf8;
use stored::node::{PlanNode, PlanRecord, Run};

/// Bytes as text.
pub fn show_bytes(rt: &impl Print, bytes: &[u8]) -> io::Result<()> {
    let text = from_utf8(bytes).unwrap_or("?");
    print!(rt; "{text}")
}

fn join_word(kind: JoinKind) -> &'static str {
    match kind {
        JoinKind::Inner => "Inner",
        JoinKind::Left => "Left",
        JoinKind::Right => "Right",
        JoinKind::Full => "Full",
        JoinKind::LeftSemi => "LeftSemi",
        JoinKind::LeftAnti => "LeftAnti",
        JoinKind::RightSemi => "RightSemi",
        JoinKind::RightAnti => "RightAnti",
    }
}

fn direction_words(direction: Direction) -> &'static str {
    match direction {
        Direction::AscendingNullsFirst => "ASC NULLS FIRST",
        Direction::AscendingNullsLast => "ASC NULLS LAST",
        Direction::DescendingNullsFirst => "DESC NULLS FIRST",
        Direction::DescendingNullsLast => "DESC NULLS LAST",
    }
}

/// Prints what stands in a book.
#[derive(Drop)]
struct Printer<'a, P> {
    rt: &'a P,
    book: Reader<'a>,
}

impl<P: Print> Printer<'_, P> {
    fn show_word(&self, span: Span) -> io::Result<()> {
        match self.book.word(span) {
            Ok(bytes) => show_bytes(self.rt, bytes),
            Err(_) => print!(self.rt; "?"),
        }
    }

    fn show_column(&self, field: StoredField) -> io::Result<()> {
        if let Some(qualifier) = field.qualifier {
            self.show_word(qualifier)?;
            print!(self.rt; ".")?;
        }
        self.show_word(field.name)
    }

    fn show_literal(&self, l: Literal) -> io::Result<()> {
        match l {
            Literal::Null => print!(self.rt; "null"),
            Literal::Truth(b) => print!(self.rt; "{b}"),
            Literal::Whole(n) => print!(self.rt; "{n}"),
            Literal::Real(_) => print!(self.rt; "(real)"),
            Literal::Text(s) => {
                print!(self.rt; "'")?;
                self.show_word(s)?;
                print!(self.rt; "'")
            }
        }
    }

    fn show_function(&self, number: u8) -> io::Result<()> {
        match self.book.function(number) {
            Some(d) => self.show_word(d.name),
            None => print!(self.rt; "?"),
        }
    }

    /// An expression, so many levels deep.
    #[cycle(expressions)]
    fn show_expr(&self, e: ExprId, levels: u32) -> io::Result<()> {
        if levels == 0 {
            return print!(self.rt; "..");
        }
        // One arm for each kind: the match says what the kinds mean.
        match self.book.expr(e) {
            Err(_) => print!(self.rt; "?"),
            Ok(ExprNode::Constant(l)) => self.show_literal(l),
            Ok(ExprNode::Reference(field)) => self.show_column(field),
            Ok(ExprNode::Alias { inner, field }) => {
                self.show_expr(inner, levels - 1)?;
                print!(self.rt; " AS ")?;
                self.show_column(field)
            }
            Ok(
                ExprNode::Call {
                    function,
                    arguments,
                },
            ) => {
                self.show_function(function)?;
                print!(self.rt; "(")?;
                self.show_list(arguments, levels - 1)?;
                print!(self.rt; ")")
            }
        }
    }

    /// The expressions of a list, so many levels deep.
    #[cycle(expressions)]
    fn show_list(&self, run: Run, levels: u32) -> io::Result<()> {
        let listed = (0..run.count).filter_map(|i| self.book.listed(run, i).ok());
        for (i, e) in listed.enumerate() {
            if i > 0 {
                print!(self.rt; ", ")?;
            }
            self.show_expr(e, levels)?;
        }
        Ok(())
    }

    /// The keys of a Sort, each with its direction as SQL writes it.
    fn show_keys(&self, run: Run) -> io::Result<()> {
        let entries = (0..run.count).filter_map(|i| self.book.entry(run, i).ok());
        for (i, entry) in entries.enumerate() {
            if i > 0 {
                print!(self.rt; ", ")?;
            }
            if let Entry::Key(by, direction) = entry {
                self.show_expr(by, 256)?;
                print!(self.rt; " {}", direction_words(direction))?;
            }
        }
        Ok(())
    }

    fn show_aggregate(&self, groups: Run, totals: Run) -> io::Result<()> {
        print!(self.rt; "Aggregate: groupBy=[")?;
        self.show_list(groups, 256)?;
        print!(self.rt; "], aggr=[")?;
        self.show_list(totals, 256)?;
        print!(self.rt; "]")
    }

    /// What a node does, without its inputs.
    fn show_kind(&self, node: PlanNode) -> io::Result<()> {
        match node {
            PlanNode::Table { qualifier, .. } => {
                print!(self.rt; "TableScan: ")?;
                self.show_word(qualifier)
            }
            PlanNode::Projection { list, .. } => {
                print!(self.rt; "Projection: ")?;
                self.show_list(list, 256)
            }
            PlanNode::Filter { predicate, .. } => {
                print!(self.rt; "Filter: ")?;
                self.show_expr(predicate, 256)
            }
            PlanNode::Sort { keys, .. } => {
                print!(self.rt; "Sort: ")?;
                self.show_keys(keys)
            }
            PlanNode::Limit { skip, count, .. } => {
                print!(self.rt; "Limit: skip={skip}, fetch={count}")
            }
            PlanNode::Aggregate { groups, totals, .. } => self.show_aggregate(groups, totals),
            PlanNode::Join { kind, on, .. } => {
                print!(self.rt; "{} Join: ", join_word(kind))?;
                self.show_list(on, 256)
            }
            PlanNode::SubqueryAlias { name, .. } => {
                print!(self.rt; "SubqueryAlias: ")?;
                self.show_word(name)
            }
            PlanNode::Union { .. } => print!(self.rt; "Union"),
        }
    }

    fn show_fields(&self, fields: &[StoredField]) -> io::Result<()> {
        for (i, f) in fields.iter().enumerate() {
            if i > 0 {
                print!(self.rt; ", ")?;
            }
            self.show_column(*f)?;
        }
        Ok(())
    }

    fn show_columns(&self, p: PlanId) -> io::Result<()> {
        match self.book.node_fields(p) {
            Ok(fields) => self.show_fields(fields),
            Err(_) => print!(self.rt; "?"),
        }
    }

    fn show_node(&self, p: PlanId, record: PlanRecord, levels: u32) -> io::Result<()> {
        for _ in levels..64 {
            print!(self.rt; "  ")?;
        }
        self.show_kind(record.node)?;
        print!(self.rt; "  [fields: ")?;
        self.show_columns(p)?;
        println!(self.rt; "; node {}, origin {}]", p.0, record.origin.0)
    }

    /// A node and what is below it, so many levels deep.
    fn show_plan(&self, p: PlanId, levels: u32) -> io::Result<()> {
        if levels == 0 {
            return Ok(());
        }
        let Ok(record) = self.book.plan(p) else {
            return Ok(());
        };
        self.show_node(p, record, levels)?;
        // One arm for each count of inputs: none, one, two, or a list.
        match record.node {
            PlanNode::Table { .. } => Ok(()),
            PlanNode::Projection { input, .. }
            | PlanNode::Filter { input, .. }
            | PlanNode::Sort { input, .. }
            | PlanNode::Limit { input, .. }
            | PlanNode::Aggregate { input, .. }
            | PlanNode::SubqueryAlias { input, .. } => self.show_plan(input, levels - 1),
            PlanNode::Join { left, right, .. } => {
                self.show_plan(left, levels - 1)?;
                self.show_plan(right, levels - 1)
            }
            PlanNode::Union { inputs } => {
                for entry in (0..inputs.count).filter_map(|i| self.book.entry(inputs, i).ok()) {
                    if let Entry::Input(input) = entry {
                        self.show_plan(input, levels - 1)?;
                    }
                }
                Ok(())
            }
        }
    }
}

/// Prints a plan; a tree has at most 64 nodes, so no more levels.
pub fn explain(rt: &impl Print, book: &OpenBook, p: PlanId) -> io::Result<()> {
    let book = book.reader();
    Printer { rt, book }.show_plan(p, 64)
}

/// Prints an expression; a tree has at most 256 nodes, so no more levels.
pub fn show_expression(rt: &impl Print, book: &OpenBook, e: ExprId) -> io::Result<()> {
    let book = book.reader();
    Printer { rt, book }.show_expr(e, 256)
}

/// Prints the fields of a node.
pub fn show_columns(rt: &impl Print, book: &OpenBook, p: PlanId) -> io::Result<()> {
    let book = book.reader();
    Printer { rt, book }.show_columns(p)
}
