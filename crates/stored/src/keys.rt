//! How the list table holds Sort keys.
ghost use Rattle.std.specs.Prelude.{refl};
ghost use Rattle.stored.specs.Keys.{key_entry, key_of};

use crate::node::SortKey;
use entries::listed::Listed;
use entries::node::{Entry, ExprId};
use plan::code::Direction;

impl Listed for SortKey {
    ghost entry = { key_entry };

    ghost read = { key_of };

    ghost kept = { λ k. refl };

    fn entry(self) -> Entry {
        Entry::Key(self.by, self.direction)
    }

    // Every entry is read as something, as the definition does: which kind a list holds is no fact that the tables keep.
    fn read(held: Entry) -> SortKey {
        let direction = match held {
            Entry::Key(_, direction) => direction,
            _ => Direction::AscendingNullsFirst,
        };
        SortKey {
            by: ExprId::read(held),
            direction,
        }
    }
}
