//! Lists of the list table as tables of their own, so that they can be lent to a new node.
ghost use Rattle.std.specs.Prelude.{◌≡◌, ◌≤◌, map, length};

use entries::listed::Listed;
use entries::node::{Entry, PlanId};
use table::table::Table;

/// The items of a list.
pub fn copied<T: Listed, const N: usize>(entries: &[Entry]) -> Table<T, N>
    requires { length entries.now ≤ N }
    ensures { result ≡ map T.read entries.now }
{
    let mut out = Table::new(T::read(Entry::Input(PlanId(0))));
    out.push_each(entries, |entry| T::read(entry));
    out
}

/// A name.
// Not `copied`: that takes entries, and a name is bytes.
pub fn copy_name(name: &[u8]) -> Table<u8, 255>
    requires { length name.now ≤ 255 }
    ensures { result ≡ name.now }
{
    let mut out = Table::new(0);
    out.extend(name);
    out
}
