//! Whether the fields of a new node may stand together.
ghost use Rattle.std.specs.Prelude.{◌≡◌, ◌<◌, ◌++◌};
ghost use Rattle.tables.specs.Holding.{fields_at, plan_count};
ghost use Rattle.asking.specs.Asked.{functions_for, new_fields, new_tree};
ghost use Rattle.plan.specs.Fields.{lawful};
ghost use Rattle.plan.specs.Plans.{fields_of};
ghost use Rattle.plan.specs.Questions.{joint_fields};

use crate::asked::Asked;
use draft::building::push_stored;
use draft::lawful::Source;
use draft::word::{DraftField, Word};
use entries::node::PlanId;
use stored::node::NewNode;
use table::table::Table;
use tables::tables::Tables;

/// What fills the places of a draft that are not used.
// A filler from the caller: a Default of fields would be a made-up field that all can see.
pub(crate) fn blank() -> DraftField {
    DraftField {
        qualifier: None,
        name: Word::Owner,
    }
}

fn is_lawful_join(tables: &Tables, left: PlanId, right: PlanId) -> bool
    requires left { left.0 < plan_count tables.now }
    requires right { right.0 < plan_count tables.now }
    ensures { result ≡ lawful (fields_at tables.now left.0 ++ fields_at tables.now right.0) }
{
    let mut draft = Table::new(blank());
    push_stored(&mut draft, tables.fields_of(left));
    push_stored(&mut draft, tables.fields_of(right));
    let source = Source {
        terms: tables.terms(),
        owner: b"",
        given: b"",
    };
    source.is_lawful(draft.as_slice())
}

impl Asked<'_, '_> {
    fn is_lawful_shown(self) -> bool
        ensures { result ≡ lawful (new_fields self.entry) }
    {
        let mut draft = Table::new(blank());
        self.draft_shown(&mut draft);
        let source = Source {
            terms: self.tables.terms(),
            owner: self.node.lent_owner(),
            given: self.node.lent_given(),
        };
        source.is_lawful(draft.as_slice())
    }

    /// Whether the fields of the new node, and of both sides of a join, may stand in one list.
    pub(crate) fn is_lawful_node(self) -> bool
        ensures { result ≡ lawful (joint_fields (functions_for self.entry) (new_tree self.entry)) }
    {
        match self.node {
            NewNode::Join { left, right, .. } => is_lawful_join(self.tables, left, right),
            _ => self.is_lawful_shown(),
        }
    }
}
