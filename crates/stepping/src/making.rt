//! A node that is made at a stage.
ghost use Rattle.plan.specs.Faults.{fault};
ghost use Rattle.rewriting.specs.Extracting.{made};
ghost use Rattle.std.specs.Prelude.{◌≡◌, ◌+◌, IfOk, true};
ghost use Rattle.stepping.specs.Steps.{Buildable, Steps};
ghost use Rattle.tables.specs.Begun.{TablesBegin};
ghost use Rattle.tables.specs.Holding.{model_of, plan_count, view_in};
ghost use Rattle.stored.specs.Making.{bounded, well_named};
ghost use Rattle.tables.specs.Making.{present, tree_for, well_placed};

use asking::making::make;
use entries::node::PlanId;
use plan::fault::{Fault, Stage};
use stored::node::NewNode;
use tables::tables::Tables;

/// A refusal by the same question at another stage and level.
pub fn at_stage(refused: Fault, stage: Stage, level: u8) -> Fault
    ensures { result ≡ fault refused.question stage level }
{
    Fault {
        question: refused.question,
        stage,
        level,
    }
}

/// Makes a node that is no Table, where what it names is there. A refusal is of this stage and level.
pub fn make_at(
    tables: &mut Tables,
    node: NewNode<'_>,
    stage: Stage,
    level: u8,
) -> Result<PlanId, Fault>
    requires present { present tables.old node ≡ true }
    requires bounded { bounded node ≡ true }
    requires named { well_named node ≡ true }
    requires placed { well_placed tables.old node ≡ true }
    requires kind { Buildable tables.old node }
    ensures steps { Steps (model_of tables.old) 0 (made (view_in tables.old).functions stage level (tree_for tables.old node.entry)) result (model_of tables.new) }
    ensures last { IfOk result (λ r. (r.0 ≡ plan_count tables.old) × (r.0 + 1 ≡ plan_count tables.new)) }
    ensures begins { TablesBegin tables.old tables.new }
{
    // A match: of the closure that `map_err` takes only its own contract is known.
    match make(tables, node) {
        Ok(p) => Ok(p),
        Err(refused) => Err(at_stage(refused, stage, level)),
    }
}
