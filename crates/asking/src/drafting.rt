//! The fields of a node that is to be made, before they are stored.
ghost use Rattle.std.specs.Prelude.{◌≡◌, ◌<◌, [], sum_by};
ghost use Rattle.tables.specs.Drafting.{DraftOf};
ghost use Rattle.tables.specs.Holding.{fields_at, plan_count, view_in};
ghost use Rattle.asking.specs.Asked.{functions_for, new_fields, new_tree};
ghost use Rattle.stored.specs.Placing.{lent_given, lent_owner};
ghost use Rattle.plan.specs.Calls.{rendered_bytes};
ghost use Rattle.plan.specs.Plans.{fields_of, shown};
ghost use Rattle.plan.specs.Questions.{shown_expressions};

use crate::asked::Asked;
use draft::building::{push_bare, push_columns, push_expressions, push_owned, push_stored};
use draft::word::DraftField;
use entries::node::{PlanId, Span};
use names::parts::split_names;
use plan::code::JoinKind;
use stored::node::NewNode;
use table::table::Table;
use tables::tables::Tables;

/// The fields that a join shows.
// The kind and both sides come as the node has them. Methods of `JoinKind` for its sides would be two contracts more, and
// serve only here and in `join_width`.
fn draft_join(
    tables: &Tables,
    kind: JoinKind,
    left: PlanId,
    right: PlanId,
    out: &mut Table<DraftField, 128>,
)
    requires left { left.0 < plan_count tables.now }
    requires right { right.0 < plan_count tables.now }
    requires empty { out.old ≡ [] }
    ensures { DraftOf (view_in tables.now) [] [] (shown kind (fields_at tables.now left.0) (fields_at tables.now right.0)) 0 out.new }
{
    match kind {
        JoinKind::LeftSemi | JoinKind::LeftAnti => push_stored(out, tables.fields_of(left)),
        JoinKind::RightSemi | JoinKind::RightAnti => push_stored(out, tables.fields_of(right)),
        _ => {
            push_stored(out, tables.fields_of(left));
            push_stored(out, tables.fields_of(right));
        }
    }
}

impl Asked<'_, '_> {
    /// The fields that the new node shows.
    pub(crate) fn draft_shown(self, out: &mut Table<DraftField, 128>)
        requires { out.old ≡ [] }
        ensures { DraftOf (view_in self.entry.tables.now) (lent_owner self.entry.node) (lent_given self.entry.node) (new_fields self.entry) (sum_by (rendered_bytes (functions_for self.entry)) (shown_expressions (new_tree self.entry))) out.new }
    {
        // One arm for each way of showing fields: the match says what the kinds mean.
        match self.node {
            NewNode::Table { names, .. } => {
                let mut pieces = Table::new(Span { start: 0, len: 0 });
                split_names(names, &mut pieces);
                push_columns(out, pieces.as_slice());
            }
            NewNode::Projection { list, .. } => push_expressions(self.tables.terms(), out, list),
            NewNode::Filter { input, .. }
            | NewNode::Sort { input, .. }
            | NewNode::Limit { input, .. } => push_stored(out, self.tables.fields_of(input)),
            NewNode::Aggregate { groups, totals, .. } => {
                push_expressions(self.tables.terms(), out, groups);
                push_expressions(self.tables.terms(), out, totals);
            }
            NewNode::Join {
                kind,
                left,
                right,
                ..
            } => draft_join(self.tables, kind, left, right, out),
            NewNode::SubqueryAlias { input, .. } => push_owned(out, self.tables.fields_of(input)),
            NewNode::Union { inputs } => push_bare(out, self.tables.fields_of(inputs[0])),
        }
    }
}
