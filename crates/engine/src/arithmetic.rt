//! Equality, sums and differences, `and`, and the test for a missing value.
ghost use Rattle.std.specs.Prelude.{◌≡◌, ℕ, List, FitsSigned, SomeIff, ◌+ℤ◌, ◌-ℤ◌};
ghost use Rattle.std.specs.Int.{w64};
ghost use Rattle.engine.specs.Arithmetic.{alike, arithmetic, arithmetic_strict, both as both_of, equal as equal_of, minus as minus_of, plus as plus_of, same_texts};
ghost use Rattle.engine.specs.ArithmeticLaw.{arithmetic-nulls};
ghost use Rattle.engine.specs.Numbers.{OfNumbers};
ghost use Rattle.value.specs.Meanings.{meaning_of};

use super::Engine;
use value::{Value, is_null, shown};

/// The sum, or none where it has more than 64 bits.
// A rule of the project: the range is tested before the operation, for either sign. `checked_add` operates first.
fn plus_whole(m: i64, n: i64) -> Option<i64>
    ensures { SomeIff result (FitsSigned w64 (m +ℤ n)) (m +ℤ n) }
{
    let fits = if n < 0 {
        m >= i64::MIN - n
    } else {
        m <= i64::MAX - n
    };
    if fits { Some(m + n) } else { None }
}

/// The difference, or none where it has more than 64 bits.
// The same rule. One function of both would take the operation, its inverse and the bound for each sign.
fn minus_whole(m: i64, n: i64) -> Option<i64>
    ensures { SomeIff result (FitsSigned w64 (m -ℤ n)) (m -ℤ n) }
{
    let fits = if n < 0 {
        m <= i64::MAX + n
    } else {
        m >= i64::MIN + n
    };
    if fits { Some(m - n) } else { None }
}

/// An operation on two whole numbers or on two reals.
fn of_numbers<W: Fn(i64, i64) -> Option<i64>, R: Fn(f64, f64) -> f64>(
    wholes: W,
    reals: R,
    a: Value,
    b: Value,
) -> Value
    requires wholes { W.IsAlwaysCallable wholes }
    requires reals { R.IsAlwaysCallable reals }
    ensures { OfNumbers (W.post wholes) (R.post reals) a b result }
{
    match (a, b) {
        (Value::Whole(m), Value::Whole(n)) => wholes(m, n).map_or(Value::Null, Value::Whole),
        (Value::Real(x), Value::Real(y)) => Value::Real(reals(x, y)),
        _ => Value::Null,
    }
}

/// The sum of two whole numbers or of two reals.
fn plus(a: Value, b: Value) -> Value
    ensures { (book row : List ℕ) → meaning_of book row result ≡ plus_of (meaning_of book row a) (meaning_of book row b) }
{
    of_numbers(plus_whole, |x, y| x + y, a, b)
}

/// The difference of two whole numbers or of two reals.
fn minus(a: Value, b: Value) -> Value
    ensures { (book row : List ℕ) → meaning_of book row result ≡ minus_of (meaning_of book row a) (meaning_of book row b) }
{
    of_numbers(minus_whole, |x, y| x - y, a, b)
}

/// Whether two texts that are there have the same bytes.
// The two texts as apply takes them, also in same and equal; a struct would be made here and taken apart for shown.
fn same_text(book: &[u8], row: &[u8], a: Value, b: Value) -> bool
    ensures { result ≡ same_texts (meaning_of book.now row.now a) (meaning_of book.now row.now b) }
{
    match (shown(book, row, a), shown(book, row, b)) {
        (Ok(x), Ok(y)) => x == y,
        _ => false,
    }
}

/// Whether two values are of one kind and equal.
// No derive: texts are equal by their bytes, which lie in two lent slices.
fn same(book: &[u8], row: &[u8], a: Value, b: Value) -> bool
    ensures { result ≡ alike (meaning_of book.now row.now a) (meaning_of book.now row.now b) }
{
    match (a, b) {
        (Value::Truth(x), Value::Truth(y)) => x == y,
        (Value::Whole(x), Value::Whole(y)) => x == y,
        (Value::Real(x), Value::Real(y)) => x == y,
        (Value::Text(_), Value::Text(_)) => same_text(book, row, a, b),
        (Value::Record(x), Value::Record(y)) => x == y,
        _ => false,
    }
}

/// Whether two values are equal, or null where one is null.
fn equal(book: &[u8], row: &[u8], a: Value, b: Value) -> Value
    ensures { meaning_of book.now row.now result ≡ equal_of (meaning_of book.now row.now a) (meaning_of book.now row.now b) }
{
    if is_null(book, row, a) || is_null(book, row, b) {
        Value::Null
    } else {
        Value::Truth(same(book, row, a, b))
    }
}

/// True for two trues, false if either is false, else null.
fn both(a: Value, b: Value) -> Value
    ensures { (book row : List ℕ) → meaning_of book row result ≡ both_of (meaning_of book row a) (meaning_of book row b) }
{
    match (a, b) {
        (Value::Truth(x), Value::Truth(y)) => Value::Truth(x && y),
        (Value::Truth(false), _) | (_, Value::Truth(false)) => Value::Truth(false),
        _ => Value::Null,
    }
}

/// 0 is equal, 1 plus, 2 minus, 3 `and`, 4 missing. A wrong count of arguments and any other number give null.
#[derive(Clone, Copy, PartialEq, Eq, Debug)]
pub struct Arithmetic;

impl Engine for Arithmetic {
    ghost meaning = { λ _ _ _. arithmetic };

    ghost strict = { λ _. arithmetic_strict };

    ghost nulls = { λ _ _ _. arithmetic-nulls };

    fn apply(&self, book: &[u8], row: &[u8], number: u32, args: &[Value]) -> Value {
        // A rule of the project: functions are known by number. An enum of them would be a second match, from number to case.
        match (number, args) {
            (0, &[a, b]) => equal(book, row, a, b),
            (1, &[a, b]) => plus(a, b),
            (2, &[a, b]) => minus(a, b),
            (3, &[a, b]) => both(a, b),
            (4, &[a]) => Value::Truth(is_null(book, row, a)),
            _ => Value::Null,
        }
    }

    fn is_strict(&self, number: u32) -> bool {
        number != 3 && number != 4
    }
}
