//! An expression over a Projection's fields as one over its input's: what is behind a field stands in for each reference to it.
ghost use Rattle.extracting.specs.Walking.{BuiltBy};
ghost use Rattle.merging.specs.Replacing.{MapIn, map_of, replaced};
ghost use Rattle.plan.specs.Fields.{any};
ghost use Rattle.plan.specs.Functions.{is_total};
ghost use Rattle.plan.specs.Terms.Expr.{reference as reference_tree};
ghost use Rattle.plan.specs.Terms.{size_of};
ghost use Rattle.rewriting.specs.Extracting.{replace_cols_by_name};
ghost use Rattle.rewriting.specs.Outlay.{tree_space};
ghost use Rattle.rows.specs.Rows.{seek};
ghost use Rattle.std.specs.Prelude.{◌≡◌, ◌<◌, ◌≤◌, min, true, false, length};
ghost use Rattle.tables.specs.Begun.{TablesBegin};
ghost use Rattle.tables.specs.Holding.{view_in};
ghost use Rattle.entries.specs.Spans.{stored_field, stored_in};
ghost use Rattle.terms.specs.Views.{count, tree_of, view_of};

use entries::listed::Listed;
use entries::node::{ExprId, ExprNode, StoredField};
use extracting::rebuilding::{arguments_of, realias, recall, still_same};
use plan::fault::Fault;
use routing::seeking::seek;
use table::table::Table;
use tables::tables::Tables;
use terms::terms::Terms;

/// Fields, and at the same places what stands in for them.
#[derive(Clone, Copy)]
pub struct ReplaceMap<'a> {
    pub fields: &'a [StoredField],
    pub behind: &'a [ExprId],
}

impl ReplaceMap<'_> {
    /// What stands in for a reference `e` to a field; `e` itself where it may mean none of the fields.
    fn stand_in(self, terms: &Terms, e: ExprId, field: StoredField) -> ExprId
        requires inside { MapIn (view_of terms.now) self }
        requires present { e.0 < count terms.now }
        requires stored { stored_in (view_of terms.now).bytes field ≡ true }
        requires tree { tree_of terms.now e.0 ≡ reference_tree (stored_field (view_of terms.now).bytes field) }
        ensures tree { tree_of terms.now result.0 ≡ replaced (view_of terms.now) self.entry e.0 }
        ensures present { result.0 < count terms.now }
    {
        let place = seek(terms, self.fields, field);
        if place < self.behind.len() {
            self.behind[place]
        } else {
            e
        }
    }

    /// What is behind the field that a reference means.
    pub(crate) fn behind_field(self, terms: &Terms, field: StoredField) -> ExprId
        requires inside { MapIn (view_of terms.now) self }
        requires stored { stored_in (view_of terms.now).bytes field ≡ true }
        requires known { seek (stored_field (view_of terms.now).bytes field) (map_of (view_of terms.now) self).0 < length self.fields.now }
        ensures tree { tree_of terms.now result.0 ≡ replace_cols_by_name (map_of (view_of terms.now) self.entry) (reference_tree (stored_field (view_of terms.now).bytes field)) }
        ensures present { result.0 < count terms.now }
    {
        self.behind[seek(terms, self.fields, field)]
    }
}

/// A size as it is up to 256; above that only that it is above.
fn capped(size: u32) -> u32
    ensures { result ≡ min size 257 }
{
    size.min(257)
}

/// How large an expression becomes when its columns are replaced; 257 where it is more than 256.
pub fn replaced_size(terms: &Terms, map: ReplaceMap<'_>, e: ExprId) -> u32
    requires inside { MapIn (view_of terms.now) map }
    requires present { e.0 < count terms.now }
    ensures { result ≡ min (size_of (replaced (view_of terms.now) map.entry e.0)) 257 }
{
    match terms.node(e) {
        ExprNode::Constant(_) => 1,
        ExprNode::Reference(field) => capped(terms.size(map.stand_in(terms, e, field))),
        ExprNode::Alias { inner, .. } => capped(replaced_size(terms, map, inner) + 1),
        ExprNode::Call { arguments, .. } => {
            let mut size = 1;
            for entry in terms.entries(arguments) {
                size = capped(size + replaced_size(terms, map, ExprId::read(*entry)));
            }
            size
        }
    }
}

/// The expression with what stands in for its columns, where no total does: a total is no argument of a call.
pub fn replace_cols_by_name(
    tables: &mut Tables,
    map: ReplaceMap<'_>,
    e: ExprId,
) -> Result<ExprId, Fault>
    requires inside { MapIn (view_in tables.old) map }
    requires present { e.0 < length (view_in tables.old).trees }
    requires totals { any (is_total (view_in tables.old).functions) (map_of (view_in tables.old) map).1 ≡ false }
    requires small { size_of (replaced (view_in tables.old) map e.0) ≤ 256 }
    ensures answer { BuiltBy tables.old (tree_space (replaced (view_in tables.old) map.entry e.0)) 0 (replaced (view_in tables.old) map.entry e.0) result tables.new }
    ensures begins { TablesBegin tables.old tables.new }
{
    match tables.terms().node(e) {
        ExprNode::Constant(_) => Ok(e),
        ExprNode::Reference(field) => Ok(map.stand_in(tables.terms(), e, field)),
        ExprNode::Alias { inner, field } => {
            let made = replace_cols_by_name(tables, map, inner)?;
            realias(tables, e, inner, field, made)
        }
        ExprNode::Call {
            function,
            arguments,
        } => {
            let given = arguments_of(tables.terms(), arguments);
            let mut made: Table<ExprId, 4> = Table::new(e);
            let mut same = true;
            for argument in given.as_slice() {
                let part = replace_cols_by_name(tables, map, *argument)?;
                same = still_same(same, part, *argument);
                made.push(part);
            }
            recall(tables, e, function, given.as_slice(), made.as_slice(), same)
        }
    }
}
