//! What a new node brings of its own: list entries, bytes, and the names that it lends to its fields.
ghost use Rattle.std.specs.Prelude.{◌≡◌};
ghost use Rattle.stored.specs.Making.{bytes_for, entries_for};
ghost use Rattle.stored.specs.Placing.{lent_given, lent_owner};

use crate::node::NewNode;

impl<'a> NewNode<'a> {
    /// How many list entries a node takes.
    pub fn list_len(self) -> usize
        ensures { result ≡ entries_for self.entry }
    {
        match self {
            NewNode::Projection { list, .. } => list.len(),
            NewNode::Sort { keys, .. } => keys.len(),
            NewNode::Aggregate { groups, totals, .. } => groups.len() + totals.len(),
            NewNode::Join { on, .. } => on.len(),
            NewNode::Union { inputs } => inputs.len(),
            _ => 0,
        }
    }

    /// How many bytes of its own a node takes.
    pub fn own_len(self) -> usize
        ensures { result ≡ bytes_for self.entry }
    {
        match self {
            NewNode::Table { qualifier, names } => qualifier.len() + names.len(),
            NewNode::SubqueryAlias { name, .. } => name.len(),
            _ => 0,
        }
    }

    /// The lent name that the new node's fields take as qualifier; nothing where there is none.
    // An empty name for none, as the definition answers: who drafts the fields takes slices.
    pub fn lent_owner(self) -> &'a [u8]
        ensures { result.now ≡ lent_owner self.entry }
    {
        match self {
            NewNode::Table { qualifier, .. } => qualifier,
            NewNode::SubqueryAlias { name, .. } => name,
            _ => b"",
        }
    }

    /// The lent names of the new node's fields; nothing where there are none.
    // Empty for none, as the definition answers: who drafts the fields takes slices.
    pub fn lent_given(self) -> &'a [u8]
        ensures { result.now ≡ lent_given self.entry }
    {
        match self {
            NewNode::Table { names, .. } => names,
            _ => b"",
        }
    }
}
