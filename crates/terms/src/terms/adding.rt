//! How the tables of expressions grow: one name, one list, one node.
ghost use Rattle.std.specs.Prelude.{◌≡◌, ◌+◌, ◌<◌, ◌≤◌, true, [], ◌∷◌, ◌++◌, map, length};
ghost use Rattle.plan.specs.Terms.{size_of};
ghost use Rattle.terms.specs.Acceptance.{acceptable};
ghost use Rattle.terms.specs.Begun.{TermsBegin};
ghost use Rattle.terms.specs.Build.{inside_node, width_of};
ghost use Rattle.lexicon.specs.Lexicon.{functions_of, text_of};
ghost use Rattle.names.specs.Spans.{span_in, word};
ghost use Rattle.terms.specs.Views.{count, grown, tree_for, view_of};

use super::Terms;
use entries::listed::Listed;
use entries::node::{Entry, ExprId, ExprNode, ExprRecord, Literal, Run, Span};
use lexicon::lexicon::Lexicon;
use table::table::Table;

impl Terms {
    /// No expression yet.
    pub fn open(lexicon: Lexicon) -> Terms
        ensures functions { (view_of result).functions ≡ functions_of lexicon }
        ensures trees { (view_of result).trees ≡ [] }
        ensures bytes { (view_of result).bytes ≡ text_of lexicon }
        ensures entries { (view_of result).entries ≡ [] }
    {
        // Fillers as a table takes them; a `Default` of records and entries would be a made-up one that all can see.
        let filler = ExprRecord {
            node: ExprNode::Constant(Literal::Null),
            size: 1,
            width: 4,
        };
        Terms {
            lexicon,
            exprs: Table::new(filler),
            entries: Table::new(Entry::Expression(ExprId(0))),
        }
    }

    /// Adds a name or a text literal to the text.
    pub fn write(&mut self, bytes: &[u8]) -> Span
        requires { length (view_of self.old).bytes + length bytes.now ≤ 16384 }
        ensures view { view_of self.new ≡ grown (view_of self.old) [] bytes.now [] }
        ensures inside { span_in (view_of self.new).bytes result ≡ true }
        ensures word { word (view_of self.new).bytes result ≡ bytes.now }
        ensures begins { TermsBegin self.old self.new }
    {
        self.lexicon.write(bytes)
    }

    /// Adds a list to the lists.
    pub fn list<T: Listed>(&mut self, items: &[T]) -> Run
        requires { length (view_of self.old).entries + length items.now ≤ 2048 }
        ensures view { view_of self.new ≡ grown (view_of self.old) [] [] (map T.entry items.now) }
        ensures first { result.first ≡ length (view_of self.old).entries }
        ensures count { result.count ≡ length items.now }
        ensures begins { TermsBegin self.old self.new }
    {
        let first = self.entries.len() as u32;
        self.entries.push_each(items, T::entry);
        Run {
            first,
            count: items.len() as u32,
        }
    }

    /// Adds a node, with the size of its tree and the length of its rendered name.
    pub fn add(&mut self, node: ExprNode, size: u32, width: u32) -> ExprId
        requires room { count self.old < 1024 }
        requires inside { inside_node (view_of self.old).bytes (view_of self.old).entries (count self.old) node ≡ true }
        requires accepted { acceptable (view_of self.old).functions (tree_for self.old node) ≡ true }
        requires size { size ≡ size_of (tree_for self.old node) }
        requires width { width ≡ width_of (view_of self.old).functions (tree_for self.old node) }
        ensures view { view_of self.new ≡ grown (view_of self.old) (tree_for self.old node ∷ []) [] [] }
        ensures number { result.0 ≡ count self.old }
        ensures begins { TermsBegin self.old self.new }
    {
        let n = self.exprs.len() as u32;
        self.exprs.push(ExprRecord { node, size, width });
        ExprId(n)
    }
}
