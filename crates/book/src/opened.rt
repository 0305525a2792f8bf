//! An open book. Only its calls change it, so it was reached by some list of them: the law holds of it.
ghost use Rattle.rewriting.specs.Reached.{Reached};
ghost use Rattle.tables.specs.Holding.{model_of};

use tables::tables::Tables;

mod expressions;
mod extract;
mod nodes;
mod opening;
mod promising;
mod reading;
mod swap;

#[derive(Drop)]
pub struct OpenBook {
    tables: Tables,
    ghost reached: { Reached (model_of tables) },
}
