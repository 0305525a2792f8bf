//! The tables of a book that was just opened.
ghost use Rattle.plan.specs.Model.{opened};
ghost use Rattle.tables.specs.Holding.{model_of};
ghost use Rattle.lexicon.specs.Lexicon.{functions_of, text_of};
ghost use Rattle.std.specs.Prelude.{◌≡◌};

use super::Tables;
use entries::node::{PlanId, Span, StoredField};
use lexicon::lexicon::Lexicon;
use stored::node::{PlanNode, PlanRecord, Run};
use table::table::Table;
use terms::terms::Terms;

impl Tables {
    /// No expression and no node.
    pub fn open(lexicon: Lexicon) -> Tables
        ensures { model_of result ≡ opened (functions_of lexicon) (text_of lexicon) }
    {
        // Fillers from here: a Default of records would be a made-up record that all can see.
        let span = Span { start: 0, len: 0 };
        let run = Run { first: 0, count: 0 };
        let filler = PlanRecord {
            node: PlanNode::Union { inputs: run },
            fields: run,
            size: 1,
            origin: PlanId(0),
        };
        Tables {
            terms: Terms::open(lexicon),
            fields: Table::new(StoredField {
                qualifier: None,
                name: span,
            }),
            plans: Table::new(filler),
        }
    }
}
