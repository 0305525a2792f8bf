//! An extractor that has found nothing, and what others read of one.
ghost use Rattle.extracting.specs.Columns.{Columned};
ghost use Rattle.extracting.specs.Extractors.{Inside, extractor_of, needs_of};
ghost use Rattle.plan.specs.Terms.{Field};
ghost use Rattle.rewriting.specs.Routing.{Side as InputSide, empty_extractor};
ghost use Rattle.std.specs.Prelude.{◌≡◌, List, []};
ghost use Rattle.terms.specs.Views.{View};

use super::{Extracted, Extractor, Needed};
use entries::node::{ExprId, Span, StoredField};
use routing::owning::Side;
use table::table::Table;

impl Extractor {
    /// Nothing found yet; the first alias takes the number `next`.
    #[tactic(auto, unfolding(rewriting::specs::Routing::empty_extractor))]
    pub fn starting_at(next: u32) -> Extractor
        ensures value { (v : View) → extractor_of v result ≡ empty_extractor next }
        ensures inside { (v : View) → Inside v result }
        ensures entries { result.entries ≡ [] }
        ensures columns { (v : View) → (cs : List (InputSide × Field)) → Columned cs (needs_of v result) }
    {
        let entry = Extracted {
            side: Side::First,
            inner: ExprId(0),
            alias: 0,
        };
        let name = Span { start: 0, len: 0 };
        let column = Needed {
            side: Side::First,
            field: StoredField {
                qualifier: None,
                name,
            },
        };
        Extractor {
            entries: Table::new(entry),
            needed: Table::new(column),
            next,
            is_new: false,
        }
    }

    /// What was taken out, in the order in which it was found.
    pub fn entries(&self) -> &[Extracted]
        ensures { result.now ≡ self.now.entries }
    {
        self.entries.as_slice()
    }

    /// The columns that are needed, in the order in which they were found.
    pub fn needed(&self) -> &[Needed]
        ensures { result.now ≡ self.now.needed }
    {
        self.needed.as_slice()
    }

    /// The next number for an alias.
    pub fn next(&self) -> u32
        ensures { result ≡ self.now.next }
    {
        self.next
    }

    /// Whether something was taken out.
    pub fn is_new(&self) -> bool
        ensures { result ≡ self.now.is_new }
    {
        self.is_new
    }
}
