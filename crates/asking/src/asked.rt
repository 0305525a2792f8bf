//! A node that is to be made, and what is asked of it first.
ghost use Rattle.std.specs.Prelude.{◌≡◌, true};
ghost use Rattle.stored.specs.Making.{bounded, well_named};
ghost use Rattle.tables.specs.Making.{present};

use stored::node::NewNode;
use tables::tables::Tables;

/// A node that is to be made in these tables. What it names is there, its lists are not too long, and its names are
/// well formed.
#[derive(Clone, Copy)]
pub(crate) struct Asked<'t, 'a> {
    pub(crate) tables: &'t Tables,
    pub(crate) node: NewNode<'a>,
    ghost present: { present tables.now node ≡ true },
    ghost bounded: { bounded node ≡ true },
    ghost named: { well_named node ≡ true },
}
