//! Where an alias was given.
ghost use Rattle.std.specs.Prelude.{◌≡◌, ◌<◌, true, length};
ghost use Rattle.plan.specs.Fields.{any};
ghost use Rattle.plan.specs.Model.{expr_in, tree_at};
ghost use Rattle.plan.specs.Tracing.{Traced, aliased, holds_alias, trace_asked};
ghost use Rattle.tables.specs.Holding.{model_of, plan_count, view_in};
ghost use Rattle.looking.specs.Looking.{Looked};
ghost use Rattle.stored.specs.Stored.{list_in, run_exprs};
ghost use Rattle.looking.specs.Tracing.{WalkedTo, found_plan};

use super::Reader;
use entries::listed::Listed;
use entries::node::{ExprId, ExprNode, PlanId};
use names::good_name;
use plan::fault::{Fault, Question, ask};
use stored::node::{PlanNode, Run};

impl Reader<'_> {
    /// Whether an expression is an alias of this name.
    fn is_aliased(self, e: ExprId, name: &[u8]) -> bool
        requires { e.0 < length (view_in self.tables.now).trees }
        ensures { result ≡ aliased name.now (expr_in (view_in self.entry.tables.now).trees e.0) }
    {
        match self.tables.terms().node(e) {
            ExprNode::Alias { field, .. } => name == self.tables.terms().word(field.name),
            _ => false,
        }
    }

    /// Whether one of a list is.
    fn any_aliased(self, list: Run, name: &[u8]) -> bool
        requires { list_in (view_in self.tables.now) list ≡ true }
        ensures { result ≡ any (aliased name.now) (run_exprs (view_in self.entry.tables.now) list) }
    {
        self.tables
            .terms()
            .entries(list)
            .iter()
            .any(|entry| self.is_aliased(ExprId::read(*entry), name))
    }

    /// Whether a node is a Projection with an alias of this name in its list.
    fn holds_alias(self, p: PlanId, name: &[u8]) -> bool
        requires { p.0 < plan_count self.tables.now }
        ensures { result ≡ holds_alias name.now (tree_at (model_of self.entry.tables.now) p.0) }
    {
        match self.tables.record_of(p).node {
            PlanNode::Projection { list, .. } => self.any_aliased(list, name),
            _ => false,
        }
    }

    /// The first node that does: a node before its inputs, and these from left to right.
    fn trace_from(self, p: PlanId, name: &[u8]) -> Option<PlanId>
        requires { p.0 < plan_count self.tables.now }
        ensures { WalkedTo (model_of self.entry.tables.now) p.0 name.now result }
    {
        if self.holds_alias(p, name) {
            return Some(p);
        }
        // A `for`: in `find_map` the function calls itself inside a closure. The check then asks for a measure of both, and
        // it stays open in the closure that there is an input at `k`.
        let count = self.tables.input_count(p);
        for k in 0..count {
            if let Some(q) = self.trace_from(self.tables.input_at(p, k), name) {
                return Some(q);
            }
        }
        None
    }

    /// The topmost Projection at or below a node whose list has an alias of this name, if there is one.
    pub fn trace(self, node: PlanId, name: &[u8]) -> Result<Option<PlanId>, Fault>
        ensures { Looked (trace_asked (model_of self.entry.tables.now) node.0 name.now) (λ a. Traced (model_of self.entry.tables.now) node.0 name.now (found_plan a)) result }
    {
        ask(self.tables.has(node), Question::Present)?;
        ask(good_name(name), Question::Named)?;
        Ok(self.trace_from(node, name))
    }
}
