//! How an expression is taken out: a reference to its alias comes in its place.
ghost use Rattle.extracting.specs.Extractors.{Inside, entries_of, extractor_of, renewed};
ghost use Rattle.extracting.specs.Walking.{Answered};
ghost use Rattle.plan.specs.Model.{expr_in};
ghost use Rattle.plan.specs.Rendering.{unqualified_field};
ghost use Rattle.plan.specs.Terms.Expr.{reference as reference_tree};
ghost use Rattle.rewriting.specs.Generated.{countable, generated};
ghost use Rattle.rewriting.specs.Routing.{add_extracted, entered};
ghost use Rattle.routing.specs.Sides.{side_of};
ghost use Rattle.std.specs.Prelude.{◌≡◌, ◌<◌, ◌≤◌, true, None, length};
ghost use Rattle.tables.specs.Begun.{TablesBegin};
ghost use Rattle.tables.specs.Holding.{view_in};

use super::Extractor;
use crate::rebuilding::alias_column;
use entries::node::ExprId;
use plan::fault::{Fault, Question, Stage};
use routing::owning::Side;
use tables::tables::Tables;

/// Whether an alias may have a number.
#[tactic(auto, unfolding(rewriting::specs::Generated::countable))]
fn is_countable(number: u32) -> bool
    ensures { result ≡ countable number }
{
    number <= 999_999_999
}

impl Extractor {
    /// Takes an expression out that has an alias already.
    fn take_again(&mut self, tables: &mut Tables, alias: u32) -> Result<ExprId, Fault>
        requires inside { Inside (view_in tables.old) self.old }
        requires few { length self.old.entries ≤ length (view_in tables.old).trees }
        requires number { countable alias ≡ true }
        requires earlier { alias < self.old.next }
        ensures answer { Answered tables.old (reference_tree (unqualified_field (generated alias)), renewed (extractor_of (view_in tables.old) self.old)) result tables.new self.new }
        ensures begins { TablesBegin tables.old tables.new }
    {
        let column = alias_column(tables, alias)?;
        self.is_new = true;
        Ok(column)
    }

    /// Takes an expression out that has no alias yet.
    fn take_first(&mut self, tables: &mut Tables, side: Side, e: ExprId) -> Result<ExprId, Fault>
        requires inside { Inside (view_in tables.old) self.old }
        requires few { length self.old.entries ≤ length (view_in tables.old).trees }
        requires present { e.0 < length (view_in tables.old).trees }
        requires needed { length (add_extracted (side_of side) (expr_in (view_in tables.old).trees e.0) (extractor_of (view_in tables.old) self.old) None).1.needed ≤ 256 }
        ensures answer { Answered tables.old (add_extracted (side_of side) (expr_in (view_in tables.old).trees e.0) (extractor_of (view_in tables.old) self.old) None) result tables.new self.new }
        ensures begins { TablesBegin tables.old tables.new }
    {
        if !is_countable(self.next) {
            return Err(Fault {
                question: Question::Limited,
                stage: Stage::Extraction,
                level: 0,
            });
        }
        let column = alias_column(tables, self.next)?;
        self.enter(tables.terms(), side, e);
        Ok(column)
    }

    /// Takes an expression out: a reference to its alias, which is a new one if no equal expression has one.
    pub fn add_extracted(
        &mut self,
        tables: &mut Tables,
        side: Side,
        e: ExprId,
    ) -> Result<ExprId, Fault>
        requires inside { Inside (view_in tables.old) self.old }
        requires few { length self.old.entries ≤ length (view_in tables.old).trees }
        requires present { e.0 < length (view_in tables.old).trees }
        requires needed { length (add_extracted (side_of side) (expr_in (view_in tables.old).trees e.0) (extractor_of (view_in tables.old) self.old) (entered (expr_in (view_in tables.old).trees e.0) (entries_of (view_in tables.old) self.old))).1.needed ≤ 256 }
        ensures answer { Answered tables.old (add_extracted (side_of side) (expr_in (view_in tables.old).trees e.0) (extractor_of (view_in tables.old) self.old) (entered (expr_in (view_in tables.old).trees e.0) (entries_of (view_in tables.old) self.old))) result tables.new self.new }
        ensures begins { TablesBegin tables.old tables.new }
    {
        match self.entered(tables.terms(), e) {
            Some(alias) => self.take_again(tables, alias),
            None => self.take_first(tables, side, e),
        }
    }
}
