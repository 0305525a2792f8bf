//! The expressions; what adds and reads them stands below, so that it can cite `specs/Views.antt`.
ghost use Rattle.plan.specs.Fields.{every};
ghost use Rattle.plan.specs.Terms.{size_of};
ghost use Rattle.terms.specs.Acceptance.{acceptable};
ghost use Rattle.terms.specs.Build.{sound, trees, width_of};
ghost use Rattle.lexicon.specs.Lexicon.{functions_of, text_of};
ghost use Rattle.std.specs.Prelude.{◌≡◌, ◌≤◌, true, map, length};

use entries::node::{Entry, ExprRecord};
use lexicon::lexicon::Lexicon;
use table::table::Table;

mod adding;
mod marking;
mod reading;

#[derive(Drop)]
pub struct Terms {
    lexicon: Lexicon,
    exprs: Table<ExprRecord, 1024>,
    entries: Table<Entry, 2048>,
    ghost few: { length exprs ≤ 1024 },
    ghost few_entries: { length entries ≤ 2048 },
    ghost sound: { sound (text_of lexicon) entries exprs ≡ true },
    ghost accepted: { every (acceptable (functions_of lexicon)) (trees (text_of lexicon) entries exprs) ≡ true },
    ghost sizes: { map (λ r. r.size) exprs ≡ map size_of (trees (text_of lexicon) entries exprs) },
    ghost widths: { map (λ r. r.width) exprs ≡ map (width_of (functions_of lexicon)) (trees (text_of lexicon) entries exprs) },
}
