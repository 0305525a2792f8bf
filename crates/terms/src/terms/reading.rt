//! What is asked of expressions.
ghost use Rattle.std.specs.Prelude.{◌≡◌, ◌+◌, ◌<◌, ◌≤◌, true, length, slice_index, slice_index_or};
ghost use Rattle.plan.specs.Calls.{all_below, below};
ghost use Rattle.plan.specs.Fields.{any};
ghost use Rattle.plan.specs.Functions.{function_at, is_total, name_in, rule_in};
ghost use Rattle.plan.specs.Model.{exprs_in};
ghost use Rattle.plan.specs.Terms.{size_of};
ghost use Rattle.table.specs.Contents.{part};
ghost use Rattle.names.specs.Spans.{span_in, word};
ghost use Rattle.lexicon.specs.Declarations.{declaration_in, function_in};
ghost use Rattle.terms.specs.Build.{inside_node, numbers_in, width_of};
ghost use Rattle.terms.specs.Views.{AllPresent, count, numbers_of, tree_for, tree_of, view_of};

use super::Terms;
use entries::listed::Listed;
use entries::node::{Entry, ExprId, ExprNode, Run, Span};
use lexicon::declaration::Declaration;
use plan::code::Rule;

impl Terms {
    /// How many expressions there are.
    pub fn len(&self) -> usize
        ensures value { result ≡ count self.now }
        ensures bound { result ≤ 1024 }
    {
        self.exprs.len()
    }

    /// Whether an expression stands in the book.
    pub fn has(&self, e: ExprId) -> bool
        ensures { result ≡ below (count self.now) e.0 }
    {
        (e.0 as usize) < self.len()
    }

    /// Whether all of some expressions stand in the book.
    pub fn has_all(&self, ids: &[ExprId]) -> bool
        ensures { result ≡ all_below (count self.now) (numbers_of ids.now) }
    {
        ids.iter().all(|id| self.has(*id))
    }

    /// How many list entries more there is room for.
    pub fn list_room(&self) -> usize
        ensures { result + length (view_of self.now).entries ≡ 2048 }
    {
        self.entries.room()
    }

    /// How many bytes of text more there is room for.
    pub fn text_room(&self) -> usize
        ensures { result + length (view_of self.now).bytes ≡ 16384 }
    {
        self.lexicon.room()
    }

    /// The node of an expression.
    pub fn node(&self, e: ExprId) -> ExprNode
        requires { e.0 < count self.now }
        ensures tree { tree_of self.now e.0 ≡ tree_for self.now result }
        ensures inside { inside_node (view_of self.now).bytes (view_of self.now).entries e.0 result ≡ true }
    {
        self.exprs.get(e.0 as usize).node
    }

    /// How many nodes an expression's tree has.
    pub fn size(&self, e: ExprId) -> u32
        requires { e.0 < count self.now }
        ensures { result ≡ size_of (tree_of self.now e.0) }
    {
        self.exprs.get(e.0 as usize).size
    }

    /// How long an expression's rendered name is.
    pub fn width(&self, e: ExprId) -> u32
        requires { e.0 < count self.now }
        ensures { result ≡ width_of (view_of self.now).functions (tree_of self.now e.0) }
    {
        self.exprs.get(e.0 as usize).width
    }

    /// The part of the text that a span names.
    pub fn word(&self, span: Span) -> &[u8]
        requires { span_in (view_of self.now).bytes span ≡ true }
        ensures { result.now ≡ word (view_of self.now).bytes span }
    {
        self.lexicon.word(span)
    }

    /// The declaration of a number, if there is one.
    pub fn function(&self, number: u8) -> Option<Declaration>
        ensures value { function_in (view_of self.now).bytes result ≡ function_at (view_of self.now).functions number }
        ensures inside { declaration_in (view_of self.now).bytes result ≡ true }
    {
        self.lexicon.function(number)
    }

    /// The name of a function; nothing where none is declared.
    pub fn name_of(&self, number: u8) -> &[u8]
        ensures { result.now ≡ name_in (function_at (view_of self.now).functions number) }
    {
        self.function(number).map_or(b"", |d| self.word(d.name))
    }

    /// The rule of a function.
    pub fn rule(&self, number: u8) -> Rule
        ensures { result ≡ rule_in (function_at (view_of self.now).functions number) }
    {
        self.function(number).map_or(Rule::Stay, |d| d.rule)
    }

    /// The entry at a place of a list.
    pub fn entry(&self, run: Run, i: u32) -> Entry
        requires inside { run.first + run.count ≤ length (view_of self.now).entries }
        requires below { i < run.count }
        ensures { (d : Entry) → result ≡ slice_index_or (part (view_of self.now).entries run.first run.count) i d }
    {
        self.entries(run)[i as usize]
    }

    /// The entries of a list.
    pub fn entries(&self, run: Run) -> &[Entry]
        requires { run.first + run.count ≤ length (view_of self.now).entries }
        ensures { result.now ≡ part (view_of self.now).entries run.first run.count }
    {
        self.entries.part(run.first as usize, run.count as usize)
    }

    /// The expression at a place of a list.
    pub fn listed(&self, run: Run, i: u32) -> ExprId
        requires inside { run.first + run.count ≤ length (view_of self.now).entries }
        requires below { i < run.count }
        ensures { result.0 ≡ slice_index (numbers_in (view_of self.now).entries run.first run.count) i }
    {
        ExprId::read(self.entry(run, i))
    }

    /// Whether an expression is a total, under aliases at most.
    pub fn is_total(&self, e: ExprId) -> bool
        requires { e.0 < count self.now }
        ensures { result ≡ is_total (view_of self.now).functions (tree_of self.now e.0) }
    {
        match self.node(e) {
            ExprNode::Constant(_) | ExprNode::Reference(_) => false,
            ExprNode::Alias { inner, .. } => self.is_total(inner),
            ExprNode::Call { function, .. } => self.rule(function) == Rule::Total,
        }
    }

    /// Whether one of some expressions is a total.
    // A slice of numbers from a caller: that all are there is a clause, as for one number.
    pub fn any_total(&self, ids: &[ExprId]) -> bool
        requires { AllPresent self.now ids.now }
        ensures { result ≡ any (is_total (view_of self.now).functions) (exprs_in (view_of self.now).trees (numbers_of ids.now)) }
    {
        ids.iter().any(|id| self.is_total(*id))
    }

    /// The whole text.
    pub fn bytes(&self) -> &[u8]
        ensures { result.now ≡ (view_of self.now).bytes }
    {
        self.lexicon.bytes()
    }
}
