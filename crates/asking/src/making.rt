//! How a node is made: it is asked, and then it is stored.
ghost use Rattle.std.specs.Prelude.{◌≡◌, true};
ghost use Rattle.tables.specs.Begun.{TablesBegin};
ghost use Rattle.tables.specs.Holding.{model_of};
ghost use Rattle.stored.specs.Making.{bounded, well_named};
ghost use Rattle.tables.specs.Making.{NodeMade, present, well_placed};

use crate::asked::Asked;
use crate::lawful::blank;
use entries::node::PlanId;
use plan::fault::{Fault, Question, ask};
use stored::node::NewNode;
use table::table::Table;
use tables::tables::Tables;

/// Asks the questions on references, fields, limits and space, and stores the node.
// Clauses, not an Asked: that borrows the tables, and this call writes them.
pub fn make(tables: &mut Tables, node: NewNode<'_>) -> Result<PlanId, Fault>
    requires present { present tables.old node ≡ true }
    requires bounded { bounded node ≡ true }
    requires named { well_named node ≡ true }
    requires placed { well_placed tables.old node ≡ true }
    ensures made { NodeMade tables.old node.entry result (model_of tables.new) }
    ensures begins { TablesBegin tables.old tables.new }
{
    let asked = Asked { tables, node };
    ask(asked.is_resolved(), Question::Resolved)?;
    ask(asked.is_lawful_node(), Question::Lawful)?;
    ask(asked.is_limited(), Question::Limited)?;
    ask(asked.has_room(), Question::Space)?;
    let size = asked.tree_size();
    let mut draft = Table::new(blank());
    asked.draft_shown(&mut draft);
    Ok(tables.add(node, size, draft.as_slice()))
}
