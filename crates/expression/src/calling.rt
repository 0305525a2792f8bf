//! The call that makes a call of a declared function.
ghost use Rattle.std.specs.Prelude.{◌≡◌, ◌+◌, ◌≤◌, ◌&&◌, length, is_some, nat_le};
ghost use Rattle.plan.specs.Calls.Call.{make_call};
ghost use Rattle.plan.specs.Calls.{all_below, arity_is};
ghost use Rattle.plan.specs.Functions.{function_at};
ghost use Rattle.plan.specs.Model.{space};
ghost use Rattle.plan.specs.Faults.{Decided};
ghost use Rattle.plan.specs.declared.fault.Question.TheVariants.{Space as SpaceQuestion};
ghost use Rattle.plan.specs.Rendering.{rendered_rest};
ghost use Rattle.plan.specs.Terms.Expr.{call as call_tree};
ghost use Rattle.terms.specs.Build.{width_of};
ghost use Rattle.plan.specs.Terms.{sizes_of};
ghost use Rattle.terms.specs.Begun.{TermsBegin};
ghost use Rattle.expression.specs.Building.{Answered, roomy};
ghost use Rattle.terms.specs.Views.{AllPresent, arguments_of, count, numbers_of, view_of};

use crate::building::ask_room;
use entries::node::{ExprId, ExprNode};
use plan::fault::{Fault, Question, ask};
use terms::terms::Terms;

/// The arguments of a call: at most four, and each stands in the book.
#[derive(Clone, Copy)]
struct Arguments<'a> {
    terms: &'a Terms,
    ids: &'a [ExprId],
    ghost present: { AllPresent terms.now ids.now },
    ghost few: { length ids.now ≤ 4 },
}

impl Arguments<'_> {
    /// How many nodes their trees have together.
    fn sizes(self) -> u32
        ensures value { result ≡ sizes_of (arguments_of self.entry.terms.now self.entry.ids.now) }
        ensures bound { result ≤ 1024 }
    {
        self.ids.iter().map(|id| self.terms.size(*id)).sum()
    }

    /// How long their rendered names are, with a blank before each.
    fn blank_widths(self) -> u32
        ensures value { result ≡ length (rendered_rest (view_of self.entry.terms.now).functions (arguments_of self.entry.terms.now self.entry.ids.now)) }
        ensures bound { result ≤ 523268 }
    {
        self.ids.iter().map(|id| self.terms.width(*id) + 1).sum()
    }

    /// How long the rendered name of a function's call of them is.
    fn call_width(self, number: u8) -> u32
        ensures { result ≡ width_of (view_of self.entry.terms.now).functions (call_tree number (arguments_of self.entry.terms.now self.entry.ids.now)) }
    {
        let name = self.terms.name_of(number).len() as u32;
        name + 2 + self.blank_widths().saturating_sub(1)
    }

    /// Whether a call of them has a tree of at most 256 nodes.
    fn are_small(self) -> bool
        ensures { result ≡ nat_le (sizes_of (arguments_of self.entry.terms.now self.entry.ids.now) + 1) 256 }
    {
        self.sizes() < 256
    }
}

fn has_function(terms: &Terms, number: u8) -> bool
    ensures { result ≡ is_some (function_at (view_of terms.now).functions number) }
{
    terms.function(number).is_some()
}

/// Whether a function takes so many arguments.
fn takes(terms: &Terms, number: u8, ids: &[ExprId]) -> bool
    ensures { result ≡ arity_is (function_at (view_of terms.now).functions number) (length (numbers_of ids.now)) }
{
    terms
        .function(number)
        .is_some_and(|d| d.arity as usize == ids.len())
}

/// Whether one more node with a list has room.
fn ask_list_room(terms: &Terms, ids: &[ExprId]) -> Result<(), Fault>
    ensures { Decided (roomy (view_of terms.now) (space 1 0 (length (numbers_of ids.now)) 0 0)) SpaceQuestion result }
{
    ask_room(terms, ids.len(), 0)
}

fn can_call(terms: &Terms, number: u8, ids: &[ExprId]) -> bool
    ensures { result ≡ (is_some (function_at (view_of terms.now).functions number) && all_below (count terms.now) (numbers_of ids.now)) }
{
    has_function(terms, number) && terms.has_all(ids)
}

/// A call of a declared function.
pub fn call(terms: &mut Terms, function: u8, arguments: &[ExprId]) -> Result<ExprId, Fault>
    ensures answer { Answered (view_of terms.old) (make_call function (numbers_of arguments.now)) result (view_of terms.new) }
    ensures begins { TermsBegin terms.old terms.new }
{
    ask(can_call(terms, function, arguments), Question::Present)?;
    ask(takes(terms, function, arguments), Question::Bounded)?;
    ask(!terms.any_total(arguments), Question::Placed)?;
    let given = Arguments {
        terms,
        ids: arguments,
    };
    ask(given.are_small(), Question::Limited)?;
    ask_list_room(terms, arguments)?;
    let size = given.sizes() + 1;
    let width = given.call_width(function);
    let node = ExprNode::Call {
        function,
        arguments: terms.list(arguments),
    };
    Ok(terms.add(node, size, width))
}
