//! How a draft grows.
ghost use Rattle.std.specs.Prelude.{◌≡◌, ◌+◌, ◌≤◌, true, ◌++◌, map, length};
ghost use Rattle.draft.specs.Drafts.{FieldsFor, as_bare, as_column, as_owned, as_stored};
ghost use Rattle.plan.specs.Calls.{all_below};
ghost use Rattle.plan.specs.Model.{exprs_in};
ghost use Rattle.terms.specs.Views.{count, numbers_of, view_of};

use crate::reading::{as_stored, field_of};
use crate::word::{DraftField, Relation, Word};
use entries::node::{ExprId, Span, StoredField};
use table::table::Table;
use terms::terms::Terms;

/// Adds stored fields as they are.
// Room is a clause of each: a fact of the table and the items together.
pub fn push_stored(out: &mut Table<DraftField, 128>, fields: &[StoredField])
    requires { length out.old + length fields.now ≤ 128 }
    ensures { out.new ≡ out.old ++ map as_stored fields.now }
{
    out.push_each(fields, as_stored);
}

/// Adds stored fields under the lent owner.
pub fn push_owned(out: &mut Table<DraftField, 128>, fields: &[StoredField])
    requires { length out.old + length fields.now ≤ 128 }
    ensures { out.new ≡ out.old ++ map as_owned fields.now }
{
    out.push_each(
        fields,
        |column| DraftField {
            qualifier: Some(Relation::OfOwner),
            name: Word::Stored(column.name),
        },
    );
}

/// Adds stored fields without their qualifiers.
pub fn push_bare(out: &mut Table<DraftField, 128>, fields: &[StoredField])
    requires { length out.old + length fields.now ≤ 128 }
    ensures { out.new ≡ out.old ++ map as_bare fields.now }
{
    out.push_each(
        fields,
        |field| DraftField {
            qualifier: None,
            name: Word::Stored(field.name),
        },
    );
}

/// Adds parts of the lent names, under the lent owner.
pub fn push_columns(out: &mut Table<DraftField, 128>, pieces: &[Span])
    requires { length out.old + length pieces.now ≤ 128 }
    ensures { out.new ≡ out.old ++ map as_column pieces.now }
{
    out.push_each(
        pieces,
        |piece| DraftField {
            qualifier: Some(Relation::OfOwner),
            name: Word::Given(piece),
        },
    );
}

/// Adds the fields that expressions have.
// That all numbers are there is a clause, as in `reading`.
pub fn push_expressions(terms: &Terms, out: &mut Table<DraftField, 128>, ids: &[ExprId])
    requires present { all_below (count terms.now) (numbers_of ids.now) ≡ true }
    requires room { length out.old + length ids.now ≤ 128 }
    ensures { FieldsFor (view_of terms.now) (exprs_in (view_of terms.now).trees (numbers_of ids.now)) out.old out.new }
{
    out.push_each(ids, |id| field_of(terms, id));
}
