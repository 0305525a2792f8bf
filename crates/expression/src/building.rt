//! The calls that make an expression.
ghost use Rattle.std.specs.Prelude.{◌≡◌, ◌+◌, ◌<◌, ◌≤◌, true, [], ◌++◌, length, nat_le};
ghost use Rattle.plan.specs.Terms.{size_of};
ghost use Rattle.plan.specs.Calls.Call.{make_alias, make_literal, make_reference};
ghost use Rattle.plan.specs.Calls.{good_alias, good_field, qualifier_bytes};
ghost use Rattle.plan.specs.Faults.{Decided};
ghost use Rattle.plan.specs.Model.{space};
ghost use Rattle.plan.specs.Terms.Literal.{text as text_literal};
ghost use Rattle.plan.specs.declared.fault.Question.TheVariants.{Space as SpaceQuestion};
ghost use Rattle.terms.specs.Begun.{TermsBegin};
ghost use Rattle.expression.specs.Building.{Answered, given_field, given_literal, given_qualifier, qualifier_text, roomy};
ghost use Rattle.plan.specs.Rendering.{dotted, rendered_literal};
ghost use Rattle.entries.specs.Spans.{literal_at, plain_literal, stored_field, stored_in};
ghost use Rattle.terms.specs.Views.{count, grown, tree_of, view_of};

use entries::node::{ExprId, ExprNode, Literal, StoredField};
use names::{good_name, is_prefixed, signed_len};
use plan::fault::{Fault, Question, ask};
use terms::terms::Terms;

/// A literal, as a caller gives it.
#[derive(Clone, Copy)]
pub enum GivenLiteral<'a> {
    Null,
    Truth(bool),
    Whole(i64),
    Real(f64),
    Text(&'a [u8]),
}

/// A name and a qualifier, as a caller gives them.
#[derive(Clone, Copy)]
struct GivenField<'a> {
    name: &'a [u8],
    qualifier: Option<&'a [u8]>,
}

impl GivenField<'_> {
    fn is_good(self) -> bool
        ensures { result ≡ good_field (given_field self.entry.name.now self.entry.qualifier) }
    {
        good_name(self.name) && self.qualifier.is_none_or(|q| good_name(q))
    }

    /// Whether an alias may have this name and this qualifier.
    fn is_good_alias(self) -> bool
        ensures { result ≡ good_alias (given_field self.entry.name.now self.entry.qualifier) }
    {
        self.is_good() && (!is_prefixed(self.name) || self.qualifier.is_none())
    }

    /// How many bytes they take in the text.
    fn len(self) -> usize
        ensures { result ≡ length self.entry.name.now + qualifier_bytes (given_qualifier self.entry.qualifier) }
    {
        self.name.len() + self.qualifier.map_or(0, |q| q.len())
    }

    /// How long a reference's rendered name is.
    fn width(self) -> usize
        ensures { result ≡ length (dotted (given_qualifier self.entry.qualifier) ++ self.entry.name.now) }
    {
        self.name.len() + self.qualifier.map_or(0, |q| q.len() + 1)
    }
}

/// Whether one more node, and so many list entries and bytes, have room.
fn has_room(terms: &Terms, entries: usize, bytes: usize) -> bool
    ensures { result ≡ roomy (view_of terms.now) (space 1 0 entries 0 bytes) }
{
    terms.len() < 1024 && terms.list_room() >= entries && terms.text_room() >= bytes
}

pub(crate) fn ask_room(terms: &Terms, entries: usize, bytes: usize) -> Result<(), Fault>
    ensures { Decided (roomy (view_of terms.now) (space 1 0 entries 0 bytes)) SpaceQuestion result }
{
    ask(has_room(terms, entries, bytes), Question::Space)
}

fn ask_field_room(terms: &Terms, field: GivenField) -> Result<(), Fault>
    ensures { Decided (roomy (view_of terms.now) (space 1 0 0 0 (length field.entry.name.now + qualifier_bytes (given_qualifier field.entry.qualifier)))) SpaceQuestion result }
{
    ask_room(terms, 0, field.len())
}

/// Whether an expression's tree may have one more node.
fn is_small(terms: &Terms, e: ExprId) -> bool
    requires { e.0 < count terms.now }
    ensures { result ≡ nat_le (size_of (tree_of terms.now e.0) + 1) 256 }
{
    terms.size(e) < 256
}

/// Adds a name and a qualifier to the text.
fn write_field(terms: &mut Terms, field: GivenField) -> StoredField
    requires { length (view_of terms.old).bytes + (length field.name.now + qualifier_bytes (given_qualifier field.qualifier)) ≤ 16384 }
    ensures view { view_of terms.new ≡ grown (view_of terms.old) [] (field.entry.name.now ++ qualifier_text (given_qualifier field.entry.qualifier)) [] }
    ensures inside { stored_in (view_of terms.new).bytes result ≡ true }
    ensures field { stored_field (view_of terms.new).bytes result ≡ given_field field.entry.name.now field.entry.qualifier }
    ensures begins { TermsBegin terms.old terms.new }
{
    let name = terms.write(field.name);
    // With `map` nothing is known of what the closure wrote, and the three clauses stay open.
    let qualifier = match field.qualifier {
        None => None,
        Some(q) => Some(terms.write(q)),
    };
    StoredField { qualifier, name }
}

/// Adds a literal that holds no text, with the length of its rendered name.
fn constant(terms: &mut Terms, l: Literal, width: u32) -> Result<ExprId, Fault>
    requires plain { plain_literal l ≡ true }
    requires width { width ≡ length (rendered_literal (literal_at [] l)) }
    ensures answer { Answered (view_of terms.old) (make_literal (literal_at [] l)) result (view_of terms.new) }
    ensures begins { TermsBegin terms.old terms.new }
{
    ask_room(terms, 0, 0)?;
    Ok(terms.add(ExprNode::Constant(l), 1, width))
}

/// Adds a literal that is a text.
fn text(terms: &mut Terms, bytes: &[u8]) -> Result<ExprId, Fault>
    ensures answer { Answered (view_of terms.old) (make_literal (text_literal bytes.now)) result (view_of terms.new) }
    ensures begins { TermsBegin terms.old terms.new }
{
    ask(good_name(bytes), Question::Named)?;
    ask_room(terms, 0, bytes.len())?;
    let span = terms.write(bytes);
    Ok(terms.add(
        ExprNode::Constant(Literal::Text(span)),
        1,
        bytes.len() as u32,
    ))
}

/// A literal.
pub fn literal(terms: &mut Terms, given: GivenLiteral<'_>) -> Result<ExprId, Fault>
    ensures answer { Answered (view_of terms.old) (make_literal (given_literal given.entry)) result (view_of terms.new) }
    ensures begins { TermsBegin terms.old terms.new }
{
    match given {
        GivenLiteral::Null => constant(terms, Literal::Null, 4),
        GivenLiteral::Truth(b) => constant(terms, Literal::Truth(b), if b { 4 } else { 5 }),
        GivenLiteral::Whole(n) => constant(terms, Literal::Whole(n), signed_len(n) as u32),
        GivenLiteral::Real(x) => constant(terms, Literal::Real(x), 16),
        GivenLiteral::Text(bytes) => text(terms, bytes),
    }
}

/// A reference to a column.
pub fn reference(terms: &mut Terms, name: &[u8], qualifier: Option<&[u8]>) -> Result<ExprId, Fault>
    ensures answer { Answered (view_of terms.old) (make_reference (given_field name.now qualifier.entry)) result (view_of terms.new) }
    ensures begins { TermsBegin terms.old terms.new }
{
    let given = GivenField { name, qualifier };
    ask(given.is_good(), Question::Named)?;
    ask_field_room(terms, given)?;
    let field = write_field(terms, given);
    Ok(terms.add(ExprNode::Reference(field), 1, given.width() as u32))
}

/// An expression under another name.
pub fn alias(
    terms: &mut Terms,
    inner: ExprId,
    name: &[u8],
    qualifier: Option<&[u8]>,
) -> Result<ExprId, Fault>
    ensures answer { Answered (view_of terms.old) (make_alias inner.0 (given_field name.now qualifier.entry)) result (view_of terms.new) }
    ensures begins { TermsBegin terms.old terms.new }
{
    ask(terms.has(inner), Question::Present)?;
    let given = GivenField { name, qualifier };
    ask(given.is_good_alias(), Question::Named)?;
    ask(is_small(terms, inner), Question::Limited)?;
    ask_field_room(terms, given)?;
    let field = write_field(terms, given);
    let node = ExprNode::Alias { inner, field };
    let size = terms.size(inner) + 1;
    Ok(terms.add(node, size, name.len() as u32))
}
