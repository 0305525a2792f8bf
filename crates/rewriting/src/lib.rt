//! Extract and push, as functions on trees. Each function stands for what its contract says.
#![tactic(auto)]

ghost use Rattle.rewriting.specs.Book.{Law};
ghost use Rattle.rewriting.specs.Fresh.{GeneratedIsGood, GeneratedIsNew, NumbersStay};
ghost use Rattle.rewriting.specs.Laws.{ExtractLaw, PushLaw};
ghost use Rattle.rewriting.specs.Limits.{ExtractIsLimited};
ghost use Rattle.rewriting.specs.Marked.{ExtractLeavesNothing};
ghost use Rattle.rewriting.specs.Reached.{ReachedHolds};
ghost use Rattle.rewriting.specs.Ring.{RingHolds};
ghost use Rattle.rewriting.specs.Sample.{SampleRun};
ghost use Rattle.rewriting.specs.Worked.{worked_plans_hold};
ghost use Rattle.std.specs.Prelude.{◌≡◌, true};

/// After any list of calls of an opened book: nodes with one origin have the same fields, and in every world that fits the same rows;
/// every reference means one field; and an extract leaves no Marked call that exactly one former input owns.
pub fn calls_keep_the_law()
    ensures { Law }
{}

/// The law holds of every book that was reached by calls, and one more call keeps it so.
pub fn reached_books_keep_the_law()
    ensures { ReachedHolds }
{}

/// What extract builds has the fields and the rows of the node asked about, and every reference of it means one field.
pub fn extract_keeps()
    ensures { ExtractLaw }
{}

/// What push builds has the fields and the rows of the node asked about, and every reference of it means one field.
pub fn push_keeps()
    ensures { PushLaw }
{}

/// After an extract the rebuilt node has, outside prefixed aliases, no Marked call that exactly one former input owns.
pub fn extract_leaves_nothing()
    ensures { ExtractLeavesNothing }
{}

/// The Projection that extract builds over an input is refused by question 8 or by none.
pub fn extract_is_limited()
    ensures { ExtractIsLimited }
{}

/// A generated alias is no name and no text literal of the book.
pub fn generated_is_new()
    ensures { GeneratedIsNew }
{}

/// A generated alias is a name that an alias may have, and its number is the one that it was made from.
pub fn generated_is_good()
    ensures { GeneratedIsGood }
{}

/// Extract and push give no number back, whatever they come to: one that a trial took stays taken for the call.
pub fn numbers_stay()
    ensures { NumbersStay }
{}

/// Push is four functions that call one another, the height below the Projection falling.
pub fn push_is_a_ring()
    ensures { RingHolds }
{}

/// Extract and push make of the worked plans what is written out for them.
pub fn worked_plans_hold()
    ensures { worked_plans_hold ≡ true }
{}

/// One run of twelve calls, an extract and a swap among them, leads where it is written to lead.
pub fn sample_run_holds()
    ensures { SampleRun }
{}
