//! The questions are asked in their order: where several are answered no, the first decides.
use book::declaration::Book;
use entries::node::{ExprId, PlanId};
use std::test::Fail;
use trials::{TOTAL, first, has_counts, opened, refused_with, short_names};

#[test]
fn what_is_not_there_comes_before_names_counts_and_totals(rt: HostRuntime) -> Result<(), Fail> {
    let mut book = opened()?;
    let e = book.null()?;
    let sum = book.call(TOTAL, &[e])?;
    assert!(rt; refused_with(book.alias(ExprId(2), b"", None), 1));
    assert!(rt; refused_with(book.alias(ExprId(u32::MAX), b"a", None), 1));
    assert!(rt; refused_with(book.call(6, &[sum; 5]), 1));
    assert!(rt; refused_with(book.subquery_alias(PlanId(0), b""), 1));
    assert!(rt; refused_with(book.subquery_alias(PlanId(u32::MAX), b"s"), 1));
    assert!(rt; refused_with(book.projection(PlanId(0), &[sum; 65]), 1));
    assert!(rt; has_counts(&book, 2, 0));
    Ok(())
}

#[test]
fn names_come_before_counts_and_counts_before_totals(rt: HostRuntime) -> Result<(), Fail> {
    let mut book = opened()?;
    let names = short_names();
    let b = book.reference(b"b", None)?;
    let sum = book.call(TOTAL, &[b])?;
    let t = book.table(b"t", b"a")?;
    assert!(rt; refused_with(book.table(b"", &names), 2));
    assert!(rt; refused_with(book.call(1, &[sum, sum]), 3));
    assert!(rt; refused_with(book.aggregate(t, &[sum; 17], &[]), 3));
    assert!(rt; refused_with(book.join(8, t, t, &[sum]), 3));
    assert!(rt; refused_with(book.filter(t, sum), 4));
    assert!(rt; refused_with(book.projection(t, &[b, b]), 6));
    assert!(rt; has_counts(&book, 2, 1));
    Ok(())
}

#[test]
fn a_bad_name_of_a_function_comes_before_its_number(rt: HostRuntime) {
    let mut book = Book::new();
    assert!(rt; refused_with(book.declare(64, b"", 5, 5, false), 2));
    assert!(rt; refused_with(book.declare(64, b"f", 5, 5, false), 3));
}

#[test]
fn fields_come_before_limits_and_limits_before_space(rt: HostRuntime) -> Result<(), Fail> {
    let mut book = opened()?;
    let names = short_names();
    let wide = book.table(b"w", first(&names, 127))?;
    assert!(rt; refused_with(book.join(0, wide, wide, &[]), 7));
    let t = book.table(b"t", b"a")?;
    let mut last = t;
    for _ in 0..63 {
        last = book.limit(last, 0, 1)?;
    }
    for _ in 0..63 {
        let _ = book.limit(t, 0, 1)?;
    }
    assert!(rt; has_counts(&book, 0, 128));
    assert!(rt; refused_with(book.limit(last, 0, 1), 8));
    assert!(rt; refused_with(book.limit(t, 0, 1), 9));
    assert_eq!(rt; last, PlanId(64));
    Ok(())
}
