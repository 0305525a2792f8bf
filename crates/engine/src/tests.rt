//! What the engines answer on examples.
use super::Engine;
use super::arithmetic::Arithmetic;
use super::pair::Pair;
use super::records::{Entry, Records};
use value::Side::{Book, Row};
use value::Value::{Null, Real, Record, Truth, Whole};
use value::{Side, Text, Value};

fn call(number: u32, a: Value, b: Value) -> Value {
    Arithmetic.apply(b"agename", b"xage", number, &[a, b])
}

fn part(side: Side, start: u32, len: u32) -> Value {
    Value::Text(Text { side, start, len })
}

#[test]
fn sums(rt: HostRuntime) {
    assert!(rt; matches!(call(1, Whole(2), Whole(50)), Whole(52)));
    assert!(rt; matches!(call(1, Whole(i64::MAX), Whole(1)), Null));
    assert!(rt; matches!(call(1, Whole(i64::MIN), Whole(-1)), Null));
    assert!(rt; matches!(call(1, Whole(i64::MIN), Whole(i64::MAX)), Whole(-1)));
    assert!(rt; matches!(call(1, Whole(2), Real(50.0)), Null));
}

#[test]
fn differences(rt: HostRuntime) {
    assert!(rt; matches!(call(2, Whole(2), Whole(50)), Whole(-48)));
    assert!(rt; matches!(call(2, Whole(i64::MIN), Whole(1)), Null));
    assert!(rt; matches!(call(2, Whole(0), Whole(i64::MIN)), Null));
    assert!(rt; matches!(call(2, Whole(-1), Whole(i64::MIN)), Whole(i64::MAX)));
    assert!(rt; matches!(call(2, Whole(-1), Whole(i64::MAX)), Whole(i64::MIN)));
}

#[test]
fn reals(rt: HostRuntime) {
    let not_a_number = Real(0.0 / 0.0);
    assert!(rt; matches!(call(0, Real(0.0), Real(-0.0)), Truth(true)));
    assert!(rt; matches!(call(0, not_a_number, not_a_number), Truth(false)));
    assert!(rt; matches!(call(0, Real(1.0), Whole(1)), Truth(false)));
    assert!(rt; matches!(call(0, not_a_number, Null), Null));
}

#[test]
fn texts(rt: HostRuntime) {
    assert!(rt; matches!(call(0, part(Book, 0, 3), part(Row, 1, 3)), Truth(true)));
    assert!(rt; matches!(call(0, part(Book, 0, 3), part(Row, 0, 3)), Truth(false)));
    assert!(rt; matches!(call(0, part(Book, 0, 3), part(Row, 2, 3)), Null));
    assert!(rt; matches!(call(0, part(Row, 4, 0), part(Book, 0, 0)), Truth(true)));
    let past = [part(Row, 5, 0)];
    assert!(rt; matches!(Arithmetic.apply(b"agename", b"xage", 4, &past), Truth(true)));
}

#[test]
fn and(rt: HostRuntime) {
    assert!(rt; matches!(call(3, Null, Truth(false)), Truth(false)));
    assert!(rt; matches!(call(3, Truth(true), Truth(true)), Truth(true)));
    assert!(rt; matches!(call(3, Truth(true), Null), Null));
    assert!(rt; matches!(call(5, Whole(1), Whole(1)), Null));
}

#[test]
fn fields(rt: HostRuntime) {
    let entries = [
        Entry {
            owner: 7,
            name: b"name",
            value: Whole(1),
        },
        Entry {
            owner: 7,
            name: b"age",
            value: Whole(41),
        },
        Entry {
            owner: 7,
            name: b"age",
            value: Whole(99),
        },
    ];
    let engine = Pair {
        split: 5,
        first: Arithmetic,
        second: Records { entries: &entries },
    };
    let age = [Record(7), part(Row, 1, 3)];
    let other = [Record(8), part(Row, 1, 3)];
    assert!(rt; matches!(engine.apply(b"", b"xage", 5, &age), Whole(41)));
    assert!(rt; matches!(engine.apply(b"", b"xage", 5, &other), Null));
    assert!(rt; matches!(engine.apply(b"", b"xage", 6, &age), Null));
    assert!(rt; matches!(engine.apply(b"", b"xage", 4, &[Null]), Truth(true)));
    assert!(rt; !engine.is_strict(4) && engine.is_strict(5));
}
