//! Expressions that are made anew of parts that a walk has made.
ghost use Rattle.extracting.specs.Walking.{BuiltBy};
ghost use Rattle.plan.specs.Calls.{all_below};
ghost use Rattle.plan.specs.Fields.{any};
ghost use Rattle.plan.specs.Functions.{is_total};
ghost use Rattle.plan.specs.Model.{expr_in, exprs_in, space};
ghost use Rattle.plan.specs.Questions.{small_tree};
ghost use Rattle.plan.specs.Rendering.{unqualified_field};
ghost use Rattle.plan.specs.Terms.Expr.{alias as alias_tree, call as call_tree, reference as reference_tree};
ghost use Rattle.plan.specs.Terms.{arguments};
ghost use Rattle.rewriting.specs.Generated.{countable, generated};
ghost use Rattle.rewriting.specs.Outlay.{tree_space};
ghost use Rattle.std.specs.Prelude.{◌≡◌, ◌+◌, ◌<◌, ◌≤◌, true, false, ◌&&◌, length, nat_eq, IfOk, Ok};
ghost use Rattle.tables.specs.Begun.{TablesBegin};
ghost use Rattle.tables.specs.Holding.{view_in};
ghost use Rattle.entries.specs.Spans.{stored_field, stored_in};
ghost use Rattle.terms.specs.Build.{numbers_in};
ghost use Rattle.terms.specs.Views.{numbers_of, view_of};

use entries::listed::Listed;
use entries::node::{ExprId, Run, StoredField};
use numbering::alias::generated;
use plan::fault::Fault;
use table::table::Table;
use tables::tables::Tables;
use terms::terms::Terms;

/// The arguments of a call, apart from the tables.
pub fn arguments_of(terms: &Terms, run: Run) -> Table<ExprId, 4>
    requires inside { run.first + run.count ≤ length (view_of terms.now).entries }
    requires few { run.count ≤ 4 }
    ensures { numbers_of result ≡ numbers_in (view_of terms.now).entries run.first run.count }
{
    let mut given = Table::new(ExprId(0));
    given.push_each(terms.entries(run), ExprId::read);
    given
}

/// Whether nothing changed so far, and this argument did not either.
pub fn still_same(same: bool, part: ExprId, argument: ExprId) -> bool
    ensures { result ≡ (same && nat_eq part.0 argument.0) }
{
    same && part.0 == argument.0
}

/// A reference to the alias of a number.
pub(crate) fn alias_column(tables: &mut Tables, alias: u32) -> Result<ExprId, Fault>
    requires { countable alias ≡ true }
    ensures answer { BuiltBy tables.old (tree_space (reference_tree (unqualified_field (generated alias)))) (alias + 1) (reference_tree (unqualified_field (generated alias))) result tables.new }
    ensures last { IfOk result (λ r. r.0 ≡ length (view_in tables.old).trees) }
    ensures begins { TablesBegin tables.old tables.new }
{
    tables.reference(&generated(alias), None)
}

/// The alias `e` of `inner`, with `made` in its place; `e` itself where that is the same.
pub fn realias(
    tables: &mut Tables,
    e: ExprId,
    inner: ExprId,
    field: StoredField,
    made: ExprId,
) -> Result<ExprId, Fault>
    requires present { e.0 < length (view_in tables.old).trees }
    requires made { made.0 < length (view_in tables.old).trees }
    requires stored { stored_in (view_in tables.old).bytes field ≡ true }
    requires tree { expr_in (view_in tables.old).trees e.0 ≡ alias_tree (expr_in (view_in tables.old).trees inner.0) (stored_field (view_in tables.old).bytes field) }
    requires small { small_tree (alias_tree (expr_in (view_in tables.old).trees made.0) (stored_field (view_in tables.old).bytes field)) ≡ true }
    ensures answer { BuiltBy tables.old (space 1 0 0 0 0) 0 (alias_tree (expr_in (view_in tables.old).trees made.0) (stored_field (view_in tables.old).bytes field)) result tables.new }
    ensures kept { made.0 ≡ inner.0 → result ≡ Ok e }
    ensures begins { TablesBegin tables.old tables.new }
{
    if made.0 == inner.0 {
        return Ok(e);
    }
    tables.alias_as(made, field)
}

/// The call `e` of a function with the arguments `given`, with `made` in their place; `e` itself where they are the same.
pub fn recall(
    tables: &mut Tables,
    e: ExprId,
    function: u8,
    given: &[ExprId],
    made: &[ExprId],
    same: bool,
) -> Result<ExprId, Fault>
    requires present { e.0 < length (view_in tables.old).trees }
    requires made { all_below (length (view_in tables.old).trees) (numbers_of made.now) ≡ true }
    requires tree { expr_in (view_in tables.old).trees e.0 ≡ call_tree function (arguments (exprs_in (view_in tables.old).trees (numbers_of given.now))) }
    requires count { length made.now ≡ length given.now }
    requires small { small_tree (call_tree function (arguments (exprs_in (view_in tables.old).trees (numbers_of made.now)))) ≡ true }
    requires totals { any (is_total (view_in tables.old).functions) (exprs_in (view_in tables.old).trees (numbers_of made.now)) ≡ false }
    requires same { same ≡ true → numbers_of made.now ≡ numbers_of given.now }
    ensures answer { BuiltBy tables.old (space 1 0 (length made.now) 0 0) 0 (call_tree function (arguments (exprs_in (view_in tables.old).trees (numbers_of made.now)))) result tables.new }
    ensures kept { same ≡ true → result ≡ Ok e }
    ensures begins { TablesBegin tables.old tables.new }
{
    if same {
        return Ok(e);
    }
    tables.call(function, made)
}
