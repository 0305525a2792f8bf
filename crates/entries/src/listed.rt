//! What lists hold, as entries of the list table.
ghost use Rattle.std.specs.Prelude.{◌≡◌, refl};
ghost use Rattle.entries.specs.Entries.{expr_of, input_of};
ghost use Rattle.entries.specs.declared.node.Entry.TheVariants.{Expression, Input};
ghost use Rattle.entries.specs.declared.node.Entry.{Entry};

use crate::node::{Entry, ExprId, PlanId};

/// What may stand in a list.
pub trait Listed: Copy {
    /// The entry that it is stored as.
    ghost entry: { Self → Entry };

    /// What an entry is read as.
    ghost read: { Entry → Self };

    fn entry(self) -> Entry
        ensures { result ≡ entry self };

    fn read(held: Entry) -> Self
        ensures { result ≡ read held };

    /// What was stored is read as it was.
    ghost kept: { (x : Self) → read (entry x) ≡ x };
}

impl Listed for ExprId {
    ghost entry = { Expression };

    ghost read = { expr_of };

    ghost kept = { λ x. refl };

    fn entry(self) -> Entry {
        Entry::Expression(self)
    }

    // Every entry is read as something, as the definition does: which kind a list holds is no fact that the tables keep.
    fn read(held: Entry) -> ExprId {
        match held {
            Entry::Expression(e) | Entry::Key(e, _) => e,
            Entry::Input(p) => ExprId(p.0),
        }
    }
}

impl Listed for PlanId {
    ghost entry = { Input };

    ghost read = { input_of };

    ghost kept = { λ x. refl };

    fn entry(self) -> Entry {
        Entry::Input(self)
    }

    // By the number that the entry names, as the definition does; an expression is read by the same number.
    fn read(held: Entry) -> PlanId {
        PlanId(ExprId::read(held).0)
    }
}

/// A list may have entries of several kinds.
impl Listed for Entry {
    ghost entry = { λ e. e };

    ghost read = { λ e. e };

    ghost kept = { λ x. refl };

    fn entry(self) -> Entry {
        self
    }

    fn read(held: Entry) -> Entry {
        held
    }
}
