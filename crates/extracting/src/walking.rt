//! The walk that takes Marked calls out of an expression.
ghost use Rattle.extracting.specs.Columns.{Columned, columns_by};
ghost use Rattle.extracting.specs.Extractors.{Inside, extractor_of, needs_of};
ghost use Rattle.extracting.specs.Owners.{inputs_in, owner_by};
ghost use Rattle.extracting.specs.Walking.{Answered, AnsweredAll, walk_in, walks_in};
ghost use Rattle.plan.specs.Calls.{all_below};
ghost use Rattle.plan.specs.Functions.{is_marked, placement_of};
ghost use Rattle.plan.specs.Model.{expr_in, exprs_in};
ghost use Rattle.routing.specs.Sides.{side_of};
ghost use Rattle.std.specs.Prelude.{◌≡◌, ◌<◌, ◌≤◌, true, false, [], None, cond, length, option_map, IfOk};
ghost use Rattle.tables.specs.Begun.{TablesBegin};
ghost use Rattle.tables.specs.Holding.{nodes_of, plan_count, view_in};
ghost use Rattle.terms.specs.Views.{numbers_of};

use crate::extractor::Extractor;
use crate::inputs::{Inputs, owning_input};
use crate::rebuilding::{arguments_of, realias, recall, still_same};
use entries::node::{ExprId, ExprNode};
use names::is_prefixed;
use plan::fault::Fault;
use routing::owning::Side;
use routing::placement::placement;
use table::table::Table;
use tables::tables::Tables;

/// The input that owns an expression, if it is Marked.
fn taken_side(tables: &Tables, inputs: Inputs, e: ExprId) -> Option<Side>
    requires inputs { inputs_in (plan_count tables.now) inputs ≡ true }
    requires present { e.0 < length (view_in tables.now).trees }
    ensures { option_map side_of result ≡ cond (is_marked (placement_of (view_in tables.now).functions (expr_in (view_in tables.now).trees e.0))) (owner_by (view_in tables.now).functions (nodes_of tables.now) inputs (expr_in (view_in tables.now).trees e.0)) None }
{
    if placement(tables.terms(), e).is_marked() {
        return owning_input(tables, inputs, e);
    }
    None
}

/// The walk through an expression, where there is room for the columns that it comes to need.
fn walk(
    tables: &mut Tables,
    inputs: Inputs,
    e: ExprId,
    extractor: &mut Extractor,
) -> Result<ExprId, Fault>
    requires inputs { inputs_in (plan_count tables.old) inputs ≡ true }
    requires present { e.0 < length (view_in tables.old).trees }
    requires inside { Inside (view_in tables.old) extractor.old }
    requires few { length extractor.old.entries ≤ length (view_in tables.old).trees }
    requires needed { length (walk_in tables.old inputs (expr_in (view_in tables.old).trees e.0) (extractor_of (view_in tables.old) extractor.old)).1.needed ≤ 256 }
    ensures answer { Answered tables.old (walk_in tables.old inputs (expr_in (view_in tables.old).trees e.0) (extractor_of (view_in tables.old) extractor.old)) result tables.new extractor.new }
    ensures kept { IfOk result (λ r. (walk_in tables.old inputs (expr_in (view_in tables.old).trees e.0) (extractor_of (view_in tables.old) extractor.old)).1.new ≡ false → r.0 ≡ e.0) }
    ensures begins { TablesBegin tables.old tables.new }
{
    match tables.terms().node(e) {
        ExprNode::Constant(_) => Ok(e),
        ExprNode::Reference(field) => {
            let owner = owning_input(tables, inputs, e);
            extractor.noted(tables.terms(), owner, field);
            Ok(e)
        }
        ExprNode::Alias { inner, field } => {
            if is_prefixed(tables.terms().word(field.name)) {
                return Ok(e);
            }
            let made = walk(tables, inputs, inner, extractor)?;
            realias(tables, e, inner, field, made)
        }
        ExprNode::Call {
            function,
            arguments,
        } => {
            if let Some(side) = taken_side(tables, inputs, e) {
                return extractor.add_extracted(tables, side, e);
            }
            let given = arguments_of(tables.terms(), arguments);
            let mut made: Table<ExprId, 4> = Table::new(e);
            let mut same = true;
            for argument in given.as_slice() {
                let part = walk(tables, inputs, *argument, extractor)?;
                same = still_same(same, part, *argument);
                made.push(part);
            }
            recall(tables, e, function, given.as_slice(), made.as_slice(), same)
        }
    }
}

/// Takes out of an expression, from the root down, what is Marked and has one owner. What stands under a prefixed alias is
/// left alone, and where nothing changed the expression is given back.
pub fn routing_extract(
    tables: &mut Tables,
    inputs: Inputs,
    e: ExprId,
    extractor: &mut Extractor,
) -> Result<ExprId, Fault>
    requires inputs { inputs_in (plan_count tables.old) inputs ≡ true }
    requires present { e.0 < length (view_in tables.old).trees }
    requires inside { Inside (view_in tables.old) extractor.old }
    requires few { length extractor.old.entries ≤ length (view_in tables.old).trees }
    requires columns { Columned (columns_by (view_in tables.old).functions (nodes_of tables.old) inputs) (needs_of (view_in tables.old) extractor.old) }
    ensures answer { Answered tables.old (walk_in tables.old inputs (expr_in (view_in tables.old).trees e.0) (extractor_of (view_in tables.old) extractor.old)) result tables.new extractor.new }
    ensures kept { IfOk result (λ r. (walk_in tables.old inputs (expr_in (view_in tables.old).trees e.0) (extractor_of (view_in tables.old) extractor.old)).1.new ≡ false → r.0 ≡ e.0) }
    ensures columns { IfOk result (λ _. Columned (columns_by (view_in tables.new).functions (nodes_of tables.new) inputs) (needs_of (view_in tables.new) extractor.new)) }
    ensures begins { TablesBegin tables.old tables.new }
{
    walk(tables, inputs, e, extractor)
}

/// The same for each of some expressions, from left to right.
pub fn routing_extract_all(
    tables: &mut Tables,
    inputs: Inputs,
    list: &[ExprId],
    extractor: &mut Extractor,
    made: &mut Table<ExprId, 16>,
) -> Result<(), Fault>
    requires inputs { inputs_in (plan_count tables.old) inputs ≡ true }
    requires present { all_below (length (view_in tables.old).trees) (numbers_of list.now) ≡ true }
    requires short { length list.now ≤ 16 }
    requires empty { made.old ≡ [] }
    requires inside { Inside (view_in tables.old) extractor.old }
    requires few { length extractor.old.entries ≤ length (view_in tables.old).trees }
    requires columns { Columned (columns_by (view_in tables.old).functions (nodes_of tables.old) inputs) (needs_of (view_in tables.old) extractor.old) }
    ensures answer { AnsweredAll tables.old (walks_in tables.old inputs (exprs_in (view_in tables.old).trees (numbers_of list.now)) (extractor_of (view_in tables.old) extractor.old)) result made.new tables.new extractor.new }
    ensures kept { IfOk result (λ _. (walks_in tables.old inputs (exprs_in (view_in tables.old).trees (numbers_of list.now)) (extractor_of (view_in tables.old) extractor.old)).1.new ≡ false → numbers_of made.new ≡ numbers_of list.now) }
    ensures columns { IfOk result (λ _. Columned (columns_by (view_in tables.new).functions (nodes_of tables.new) inputs) (needs_of (view_in tables.new) extractor.new)) }
    ensures begins { TablesBegin tables.old tables.new }
{
    for e in list {
        let part = routing_extract(tables, inputs, *e, extractor)?;
        made.push(part);
    }
    Ok(())
}
