//! Names parted by commas: a text without a comma is one name, an empty one too.
ghost use Rattle.std.specs.Prelude.{◌≡◌, ◌≤◌, true, [], map, length};
ghost use Rattle.names.specs.Spans.{span_in, word};
ghost use Rattle.plan.specs.Calls.{parts};
ghost use Rattle.plan.specs.Fields.{every};
ghost use Rattle.plan.specs.Names.{good_name};

use crate::good_name;
use table::table::Table;

/// A part of a text.
// A start and a length, since a table cannot hold a slice that it lends itself; so that it is inside is a clause.
#[derive(Clone, Copy, PartialEq, Eq, Debug)]
pub struct Span {
    pub start: u32,
    pub len: u32,
}

/// Whether all names are well formed.
pub fn good_names(text: &[u8]) -> bool
    ensures { result ≡ every good_name (parts text.now) }
{
    text.split(|c| *c == b',').all(good_name)
}

/// How many names there are.
pub fn count_names(text: &[u8]) -> usize
    ensures { result ≡ length (parts text.now) }
{
    text.split(|c| *c == b',').count()
}

/// Notes where each name stands.
pub fn split_names(text: &[u8], out: &mut Table<Span, 64>)
    requires few { length (parts text.now) ≤ 64 }
    requires empty { out.old ≡ [] }
    requires short { length text.now ≤ 16384 }
    ensures pieces { map (word text.now) out.new ≡ parts text.now }
    ensures inside { every (span_in text.now) out.new ≡ true }
{
    // A `for`: `split` does not say where its parts stand.
    let mut start = 0;
    for part in text.split(|c| *c == b',') {
        out.push(Span {
            start: start as u32,
            len: part.len() as u32,
        });
        start += part.len() + 1;
    }
}
