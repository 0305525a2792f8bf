//! What a reader of a book may ask; whatever is given, there is an answer or a refusal.
ghost use Rattle.std.specs.Prelude.{◌≡◌, ◌+◌, ◌≤◌, true, ◌&&◌, [], ◌∷◌, map, length, nat_le, nat_lt, slice_index, slice_index_or};
ghost use Rattle.tables.specs.Holding.{fields_at, model_of, plan_count, view_in};
ghost use Rattle.looking.specs.Looking.{Looked, entry_count, field_in};
ghost use Rattle.tables.specs.Reading.{ReadsAs};
ghost use Rattle.plan.specs.Calls.{below};
ghost use Rattle.plan.specs.Fields.{every};
ghost use Rattle.plan.specs.Functions.{function_at};
ghost use Rattle.plan.specs.Model.{expr_in};
ghost use Rattle.plan.specs.declared.fault.Question.TheVariants.{Bounded, Present};
ghost use Rattle.table.specs.Contents.{part};
ghost use Rattle.terms.specs.Build.{numbers_in};
ghost use Rattle.lexicon.specs.Declarations.{function_in};
ghost use Rattle.entries.specs.Spans.{stored_field, stored_in};
ghost use Rattle.names.specs.Spans.{span_in, word};
ghost use Rattle.terms.specs.Views.{tree_for};

use super::Reader;
use entries::node::{Entry, ExprId, ExprNode, PlanId, Span, StoredField};
use lexicon::declaration::Declaration;
use plan::fault::{Fault, Question, ask};
use stored::node::{PlanRecord, Run};
use terms::terms::Terms;

impl<'a> Reader<'a> {
    /// How many nodes there are.
    pub fn len(self) -> usize
        ensures value { result ≡ plan_count self.entry.tables.now }
        ensures bound { result ≤ 128 }
    {
        self.tables.len()
    }

    /// Whether a node stands in the book.
    pub fn has(self, p: PlanId) -> bool
        ensures { result ≡ below (plan_count self.entry.tables.now) p.0 }
    {
        self.tables.has(p)
    }

    /// How many expressions there are.
    pub fn expr_count(self) -> usize
        ensures { result ≡ length (model_of self.entry.tables.now).exprs }
    {
        self.tables.expr_count()
    }

    /// The expressions, with the functions and the text.
    pub fn terms(self) -> &'a Terms
        ensures { result.now ≡ self.entry.tables.now.terms }
    {
        self.tables.terms()
    }

    /// A node: its kind, inputs and lists, the run of its fields, its size and its origin.
    pub fn plan(self, p: PlanId) -> Result<PlanRecord, Fault>
        ensures { Looked ((Present, below (plan_count self.entry.tables.now) p.0) ∷ []) (ReadsAs self.entry.tables.now p.0) result }
    {
        ask(self.tables.has(p), Question::Present)?;
        Ok(self.tables.record_of(p))
    }

    /// An expression: what it is and its parts.
    pub fn expr(self, e: ExprId) -> Result<ExprNode, Fault>
        ensures { Looked ((Present, below (length (model_of self.entry.tables.now).exprs) e.0) ∷ []) (λ n. expr_in (model_of self.entry.tables.now).exprs e.0 ≡ tree_for self.entry.tables.now.terms n) result }
    {
        ask(self.tables.terms().has(e), Question::Present)?;
        Ok(self.tables.terms().node(e))
    }

    /// The field at a place of a node.
    pub fn field(self, p: PlanId, i: u32) -> Result<StoredField, Fault>
        ensures { Looked ((Present, below (plan_count self.entry.tables.now) p.0) ∷ (Bounded, nat_lt i (length (fields_at self.entry.tables.now p.0))) ∷ []) (λ f. stored_field (view_in self.entry.tables.now).bytes f ≡ field_in self.entry.tables.now p.0 i) result }
    {
        ask(self.tables.has(p), Question::Present)?;
        self.tables
            .fields_of(p)
            .get(i as usize)
            .copied()
            .ok_or(Question::Bounded.refusal())
    }

    /// The declaration of a number, if there is one.
    pub fn function(self, number: u8) -> Option<Declaration>
        ensures { function_in (model_of self.entry.tables.now).text result ≡ function_at (model_of self.entry.tables.now).functions number }
    {
        self.tables.terms().function(number)
    }

    fn has_span(self, span: Span) -> bool
        ensures { result ≡ span_in (model_of self.entry.tables.now).text span }
    {
        (span.start as usize) + (span.len as usize) <= self.tables.terms().bytes().len()
    }

    /// The part of the text that a span names.
    pub fn word(self, span: Span) -> Result<&'a [u8], Fault>
        ensures { Looked ((Bounded, span_in (model_of self.entry.tables.now).text span) ∷ []) (λ w. w.now ≡ word (model_of self.entry.tables.now).text span) result }
    {
        ask(self.has_span(span), Question::Bounded)?;
        Ok(self.tables.terms().word(span))
    }

    fn has_run(self, run: Run, i: u32) -> bool
        ensures { result ≡ (nat_le (run.first + run.count) (entry_count self.entry.tables.now) && nat_lt i run.count) }
    {
        // Counted back from the room: a call for the number of entries would stand beside `list_room` for this one use.
        let len = 2048 - self.tables.terms().list_room();
        (run.first as usize) + (run.count as usize) <= len && i < run.count
    }

    /// The expression, or the node, at a place of a list.
    pub fn listed(self, run: Run, i: u32) -> Result<ExprId, Fault>
        ensures { Looked ((Bounded, nat_le (run.first + run.count) (entry_count self.entry.tables.now) && nat_lt i run.count) ∷ []) (λ e. e.0 ≡ slice_index (numbers_in (view_in self.entry.tables.now).entries run.first run.count) i) result }
    {
        ask(self.has_run(run, i), Question::Bounded)?;
        Ok(self.tables.terms().listed(run, i))
    }

    /// The entry at a place of a list: an expression, a Sort key with its direction, or a node.
    pub fn entry(self, run: Run, i: u32) -> Result<Entry, Fault>
        ensures { Looked ((Bounded, nat_le (run.first + run.count) (entry_count self.entry.tables.now) && nat_lt i run.count) ∷ []) (λ e. (d : Entry) → e ≡ slice_index_or (part (view_in self.entry.tables.now).entries run.first run.count) i d) result }
    {
        ask(self.has_run(run, i), Question::Bounded)?;
        Ok(self.tables.terms().entry(run, i))
    }

    /// The fields of a node.
    pub fn node_fields(self, p: PlanId) -> Result<&'a [StoredField], Fault>
        ensures { Looked ((Present, below (plan_count self.entry.tables.now) p.0) ∷ []) (λ fs. (map (stored_field (view_in self.entry.tables.now).bytes) fs.now ≡ fields_at self.entry.tables.now p.0) × (every (stored_in (view_in self.entry.tables.now).bytes) fs.now ≡ true)) result }
    {
        ask(self.tables.has(p), Question::Present)?;
        Ok(self.tables.fields_of(p))
    }
}
