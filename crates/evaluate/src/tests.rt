//! What is evaluated on examples, what is refused, and what fits.

use super::{evaluate, fits};
use book::declaration::Book;
use book::opened::OpenBook;
use engine::arithmetic::Arithmetic;
use engine::pair::Pair;
use engine::records::{Entry, Records};
use entries::node::{ExprId, PlanId};
use plan::fault::Fault;
use std::test::Fail;
use value::Value::{Null, Real, Record, Truth, Whole};
use value::{Side, Text, Value};

/// The number of a total.
const SUM: u8 = 6;

/// A book with a table (a, b) that declares the arithmetic and the fields of records; `missing` is strict or not.
fn opened(missing: bool) -> Result<OpenBook, Fault> {
    let mut book = Book::new();
    book.declare(0, b"equal", 2, 0, true)?;
    book.declare(1, b"plus", 2, 0, true)?;
    book.declare(2, b"minus", 2, 0, true)?;
    book.declare(4, b"missing", 1, 0, missing)?;
    book.declare(5, b"get_field", 2, 1, true)?;
    book.declare(SUM, b"sum", 1, 4, false)?;
    let mut open = book.open();
    open.table(b"t", b"a,b")?;
    Ok(open)
}

/// A call of two columns.
fn of_columns(book: &mut OpenBook, number: u8) -> Result<ExprId, Fault> {
    let a = book.reference(b"a", None)?;
    let b = book.reference(b"b", Some(b"t"))?;
    book.call(number, &[a, b])
}

/// The value of an expression where a and b hold these; the row text is `xage`, and record 7 has an age.
fn value_at(book: &OpenBook, e: ExprId, a: Value, b: Value) -> Result<Value, Fault> {
    let entries = [Entry {
        owner: 7,
        name: b"age",
        value: Whole(41),
    }];
    let engine = Pair {
        split: 5,
        first: Arithmetic,
        second: Records { entries: &entries },
    };
    let mut scratch = [Null; 256];
    evaluate(book, &engine, e, PlanId(0), &[a, b], b"xage", &mut scratch)
}

fn part(start: u32, len: u32) -> Value {
    Value::Text(Text {
        side: Side::Row,
        start,
        len,
    })
}

#[test]
fn sums(rt: HostRuntime) -> Result<(), Fail> {
    let mut book = opened(false)?;
    let sum = of_columns(&mut book, 1)?;
    let least = Whole(i64::MIN);
    assert!(rt; matches!(value_at(&book, sum, Whole(2), Whole(50))?, Whole(52)));
    assert!(rt; matches!(value_at(&book, sum, Whole(i64::MAX), Whole(1))?, Null));
    assert!(rt; matches!(value_at(&book, sum, least, Whole(-1))?, Null));
    assert!(rt; matches!(value_at(&book, sum, least, Whole(0))?, Whole(i64::MIN)));
    Ok(())
}

#[test]
fn arguments_keep_their_order(rt: HostRuntime) -> Result<(), Fail> {
    let mut book = opened(false)?;
    let inner = of_columns(&mut book, 2)?;
    let named = book.alias(inner, b"a", None)?;
    let b = book.reference(b"b", None)?;
    let outer = book.call(2, &[b, named])?;
    assert!(rt; matches!(value_at(&book, inner, Whole(2), Whole(50))?, Whole(-48)));
    assert!(rt; matches!(value_at(&book, outer, Whole(2), Whole(50))?, Whole(98)));
    Ok(())
}

#[test]
fn real_literals(rt: HostRuntime) -> Result<(), Fail> {
    let mut book = opened(false)?;
    let a = book.reference(b"a", None)?;
    let zero = book.real(-0.0)?;
    let like_zero = book.call(0, &[a, zero])?;
    let odd = book.real(0.0 / 0.0)?;
    let like_odd = book.call(0, &[odd, odd])?;
    assert!(rt; matches!(value_at(&book, like_zero, Real(0.0), Null)?, Truth(true)));
    assert!(rt; matches!(value_at(&book, like_odd, Null, Null)?, Truth(false)));
    Ok(())
}

#[test]
fn text_literals(rt: HostRuntime) -> Result<(), Fail> {
    let mut book = opened(false)?;
    let a = book.reference(b"a", None)?;
    let age = book.text(b"age")?;
    let like_age = book.call(0, &[a, age])?;
    let lost = book.call(4, &[a])?;
    let field = book.call(5, &[a, age])?;
    assert!(rt; matches!(value_at(&book, like_age, part(1, 3), Null)?, Truth(true)));
    assert!(rt; matches!(value_at(&book, like_age, part(2, 3), Null)?, Null));
    assert!(rt; matches!(value_at(&book, lost, part(2, 3), Null)?, Truth(true)));
    assert!(rt; matches!(value_at(&book, field, Record(7), Null)?, Whole(41)));
    Ok(())
}

/// Whether a call is refused with a question, at stage 1 and level 0, and leaves threes in the scratch.
// A number, since outside a book refusals are known by number.
fn refuses(
    book: &OpenBook,
    e: u32,
    p: u32,
    values: &[Value],
    scratch: &mut [Value],
    question: u8,
) -> bool {
    match evaluate(
        book,
        &Arithmetic,
        ExprId(e),
        PlanId(p),
        values,
        b"",
        scratch,
    ) {
        Ok(_) => false,
        Err(f) => u8::from(f.question) == question
            && u8::from(f.stage) == 1
            && f.level == 0
            && is_kept(scratch),
    }
}

fn is_kept(scratch: &[Value]) -> bool {
    scratch.iter().all(|v| matches!(*v, Whole(3)))
}

#[test]
fn refusals(rt: HostRuntime) -> Result<(), Fail> {
    let mut book = opened(false)?;
    let a = book.reference(b"a", None)?;
    let sum = book.call(SUM, &[a])?;
    let named = book.alias(sum, b"sum", None)?;
    let c = book.reference(b"c", None)?;
    let inside = book.call(4, &[c])?;
    let two = [Null, Null];
    let one = [Null];
    let mut enough = [Whole(3); 256];
    let mut short = [Whole(3); 255];
    assert!(rt; refuses(&book, 5, 0, &two, &mut enough, 1));
    assert!(rt; refuses(&book, a.0, 1, &one, &mut short, 1));
    assert!(rt; refuses(&book, a.0, 0, &one, &mut enough, 3));
    assert!(rt; refuses(&book, named.0, 0, &two, &mut short, 3));
    assert!(rt; refuses(&book, sum.0, 0, &two, &mut enough, 4));
    assert!(rt; refuses(&book, named.0, 0, &two, &mut enough, 4));
    assert!(rt; refuses(&book, inside.0, 0, &two, &mut enough, 6));
    assert!(rt; !refuses(&book, a.0, 0, &two, &mut enough, 6));
    Ok(())
}

#[test]
fn fitness(rt: HostRuntime) -> Result<(), Fail> {
    let engine = Pair {
        split: 5,
        first: Arithmetic,
        second: Arithmetic,
    };
    assert!(rt; fits(&opened(false)?, &engine));
    assert!(rt; !fits(&opened(true)?, &engine));
    Ok(())
}
