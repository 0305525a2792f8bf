//! What a walk has found so far; the methods stand below, so that they can cite `specs/Extractors.antt`.
ghost use Rattle.std.specs.Prelude.{◌≤◌, length};

use entries::node::{ExprId, StoredField};
use routing::owning::Side;
use table::table::Table;

mod entering;
mod needing;
mod starting;
mod taking;

/// An expression that was taken out, of which input, and the number of its alias.
#[derive(Clone, Copy)]
pub struct Extracted {
    pub side: Side,
    pub inner: ExprId,
    pub alias: u32,
}

/// A column that is needed, and of which input.
#[derive(Clone, Copy)]
pub struct Needed {
    pub side: Side,
    pub field: StoredField,
}

#[derive(Drop)]
pub struct Extractor {
    entries: Table<Extracted, 1024>,
    needed: Table<Needed, 256>,
    /// The next number for an alias.
    next: u32,
    /// Whether something was taken out.
    is_new: bool,
    ghost few_entries: { length entries ≤ 1024 },
    ghost few_needed: { length needed ≤ 256 },
}
