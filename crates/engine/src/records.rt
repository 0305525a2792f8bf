//! Records as a table of their fields.
ghost use Rattle.engine.specs.Records.{field_of, get_field, is_of, records};
ghost use Rattle.engine.specs.RecordsLaw.{records-nulls};
ghost use Rattle.value.specs.Meanings.{meaning_of};
ghost use Rattle.std.specs.Prelude.{◌≡◌, ℕ, true, List};

use super::Engine;
use value::{Value, shown};

/// A field of a record.
#[derive(Clone, Copy)]
pub struct Entry<'a> {
    /// The number of the record.
    pub owner: u32,
    pub name: &'a [u8],
    pub value: Value,
}

impl Entry<'_> {
    /// Whether it is of that record and name.
    fn is_of(&self, owner: u32, name: &[u8]) -> bool
        ensures { result ≡ is_of self.now owner name.now }
    {
        self.owner == owner && self.name == name
    }
}

/// 0 is the field of a record, by name. A wrong count of arguments and any other number give null.
#[derive(Clone, Copy)]
pub struct Records<'a, 'n> {
    pub entries: &'a [Entry<'n>],
}

impl Records<'_, '_> {
    /// The value of the first entry of that record and name, else null.
    fn field(&self, owner: u32, name: &[u8]) -> Value
        ensures { (book row : List ℕ) → meaning_of book row result ≡ field_of book row self.now.entries.now owner name.now }
    {
        self.entries
            .iter()
            .find(|entry| entry.is_of(owner, name))
            .map_or(Value::Null, |entry| entry.value)
    }

    /// The field of a record value that a text value names.
    // The two texts as apply takes them; a struct would be made here and taken apart for shown.
    fn get_field(&self, book: &[u8], row: &[u8], a: Value, b: Value) -> Value
        ensures { meaning_of book.now row.now result ≡ get_field (field_of book.now row.now self.now.entries.now) (meaning_of book.now row.now a) (meaning_of book.now row.now b) }
    {
        match (a, shown(book, row, b)) {
            (Value::Record(owner), Ok(name)) => self.field(owner, name),
            _ => Value::Null,
        }
    }
}

impl Engine for Records<'_, '_> {
    ghost meaning = { λ e book row. records (field_of book row e.entries.now) };

    ghost strict = { λ _ _. true };

    ghost nulls = { λ e book row n vs _. records-nulls (field_of book row e.entries.now) n vs };

    fn apply(&self, book: &[u8], row: &[u8], number: u32, args: &[Value]) -> Value {
        // A rule of the project: functions are known by number. An enum of them would be a second match, from number to case.
        match (number, args) {
            (0, &[a, b]) => self.get_field(book, row, a, b),
            _ => Value::Null,
        }
    }

    fn is_strict(&self, _number: u32) -> bool {
        true
    }
}
