//! How text is written and read, and how functions are found.
ghost use Rattle.std.specs.Prelude.{◌≡◌, ◌+◌, ◌<◌, ◌≤◌, true, [], ◌++◌, length, replicate, None};
ghost use Rattle.plan.specs.Functions.{function_at};
ghost use Rattle.lexicon.specs.Begun.{LexiconBegins, SameLexicon};
ghost use Rattle.lexicon.specs.Lexicon.{functions_of, text_of};
ghost use Rattle.lexicon.specs.Declarations.{declaration_in, function_in};
ghost use Rattle.names.specs.Spans.{span_in, word};

use super::Lexicon;
use crate::declaration::Declaration;
use names::parts::Span;
use table::table::Table;

impl Lexicon {
    /// No function and no text.
    pub fn new() -> Lexicon
        ensures functions { functions_of result ≡ replicate 64 None }
        ensures text { text_of result ≡ [] }
    {
        Lexicon {
            functions: [None; 64],
            text: Table::new(0),
        }
    }

    /// Adds a name or a text literal to the text.
    pub fn write(&mut self, bytes: &[u8]) -> Span
        requires { length (text_of self.old) + length bytes.now ≤ 16384 }
        ensures functions { functions_of self.new ≡ functions_of self.old }
        ensures text { text_of self.new ≡ text_of self.old ++ bytes.now }
        ensures inside { span_in (text_of self.new) result ≡ true }
        ensures word { word (text_of self.new) result ≡ bytes.now }
        ensures begins { LexiconBegins self.old self.new }
    {
        let start = self.text.len() as u32;
        self.text.extend(bytes);
        Span {
            start,
            len: bytes.len() as u32,
        }
    }

    /// Forgets all text but the first `len` bytes.
    pub fn back_to(&mut self, len: usize)
        requires { (x : Lexicon) × (len ≡ length (text_of x)) × LexiconBegins x self.old }
        ensures { (x : Lexicon) → len ≡ length (text_of x) → LexiconBegins x self.old → SameLexicon x self.new }
    {
        self.text.truncate(len);
    }

    /// How many bytes more there is room for.
    pub fn room(&self) -> usize
        ensures { result + length (text_of self.now) ≡ 16384 }
    {
        self.text.room()
    }

    /// How many bytes there are.
    pub fn len(&self) -> usize
        ensures { result ≡ length (text_of self.now) }
    {
        self.text.len()
    }

    /// The part of the text that a span names.
    pub fn word(&self, span: Span) -> &[u8]
        requires { span_in (text_of self.now) span ≡ true }
        ensures { result.now ≡ word (text_of self.now) span }
    {
        self.text.part(span.start as usize, span.len as usize)
    }

    /// The declaration of a number, if there is one.
    pub fn function(&self, number: u8) -> Option<Declaration>
        ensures value { function_in (text_of self.now) result ≡ function_at (functions_of self.now) number }
        ensures inside { declaration_in (text_of self.now) result ≡ true }
    {
        self.functions.get(number as usize).copied().flatten()
    }

    /// The whole text.
    pub fn bytes(&self) -> &[u8]
        ensures { result.now ≡ text_of self.now }
    {
        self.text.as_slice()
    }
}
