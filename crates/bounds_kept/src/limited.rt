//! Question 8: fields, trees and rendered names keep their limits.
use book::declaration::Book;
use book::opened::OpenBook;
use entries::node::{ExprId, PlanId};
use plan::fault::Fault;
use std::test::Fail;
use trials::{first, has_counts, opened, refused_with, short_names};

/// Function 1 so many times over an expression.
fn calls_over(book: &mut OpenBook, inner: ExprId, count: u32) -> Result<ExprId, Fault> {
    let mut e = inner;
    for _ in 0..count {
        e = book.call(1, &[e])?;
    }
    Ok(e)
}

/// So many Limits over a node.
fn limits_over(book: &mut OpenBook, input: PlanId, count: u32) -> Result<PlanId, Fault> {
    let mut p = input;
    for _ in 0..count {
        p = book.limit(p, 0, 1)?;
    }
    Ok(p)
}

#[test]
fn an_expression_has_256_nodes_and_not_257(rt: HostRuntime) -> Result<(), Fail> {
    let mut book = opened()?;
    let inner = book.null()?;
    let before = calls_over(&mut book, inner, 254)?;
    let last = book.call(1, &[before])?;
    assert_eq!(rt; last, ExprId(255));
    assert!(rt; refused_with(book.call(1, &[last]), 8));
    assert!(rt; refused_with(book.alias(last, b"a", None), 8));
    assert!(rt; refused_with(book.call(2, &[before, inner]), 8));
    assert!(rt; has_counts(&book, 256, 0));
    assert_eq!(rt; book.alias(before, b"a", None)?, ExprId(256));
    Ok(())
}

#[test]
fn shared_parts_of_an_expression_count_each_time(rt: HostRuntime) -> Result<(), Fail> {
    let mut book = opened()?;
    let inner = book.null()?;
    let half = calls_over(&mut book, inner, 126)?;
    let more = book.call(1, &[half])?;
    assert!(rt; refused_with(book.call(2, &[more, more]), 8));
    assert!(rt; has_counts(&book, 128, 0));
    assert_eq!(rt; book.call(2, &[half, more])?, ExprId(128));
    Ok(())
}

#[test]
fn a_plan_has_64_nodes_and_not_65(rt: HostRuntime) -> Result<(), Fail> {
    let mut book = opened()?;
    let e = book.truth(true)?;
    let t = book.table(b"t", b"a")?;
    let last = limits_over(&mut book, t, 63)?;
    assert_eq!(rt; last, PlanId(63));
    assert!(rt; refused_with(book.limit(last, 0, 1), 8));
    assert!(rt; refused_with(book.filter(last, e), 8));
    assert!(rt; refused_with(book.union(&[last]), 8));
    assert!(rt; has_counts(&book, 1, 64));
    assert_eq!(rt; book.limit(t, 0, 1)?, PlanId(64));
    Ok(())
}

#[test]
fn shared_parts_of_a_plan_count_each_time(rt: HostRuntime) -> Result<(), Fail> {
    let mut book = opened()?;
    let t = book.table(b"t", b"a")?;
    let eight = limits_over(&mut book, t, 7)?;
    let nine = book.limit(eight, 0, 1)?;
    assert!(rt; refused_with(book.union(&[eight; 8]), 8));
    assert!(rt; has_counts(&book, 0, 9));
    assert_eq!(rt; book.union(&[nine; 7])?, PlanId(9));
    Ok(())
}

#[test]
fn a_join_shows_64_fields_and_not_65(rt: HostRuntime) -> Result<(), Fail> {
    let mut book = opened()?;
    let names = short_names();
    let a = book.table(b"a", first(&names, 63))?;
    let b = book.table(b"b", first(&names, 63))?;
    let c = book.table(b"c", first(&names, 65))?;
    assert!(rt; refused_with(book.join(0, a, c, &[]), 8));
    assert!(rt; refused_with(book.join(3, c, b, &[]), 8));
    assert!(rt; has_counts(&book, 0, 3));
    assert_eq!(rt; book.join(0, a, b, &[])?, PlanId(3));
    assert_eq!(rt; book.join(4, PlanId(3), c, &[])?, PlanId(4));
    assert_eq!(rt; book.join(7, c, PlanId(3), &[])?, PlanId(5));
    Ok(())
}

#[test]
fn a_rendered_name_has_255_bytes_and_not_256(rt: HostRuntime) -> Result<(), Fail> {
    let mut book = Book::new();
    book.declare(0, &[b'f'; 253], 0, 0, false)?;
    book.declare(1, &[b'f'; 254], 0, 0, false)?;
    let mut open = book.open();
    let last = open.call(0, &[])?;
    let past = open.call(1, &[])?;
    let named = open.alias(past, b"a", None)?;
    let t = open.table(b"t", b"a")?;
    assert!(rt; refused_with(open.projection(t, &[past]), 8));
    assert!(rt; refused_with(open.aggregate(t, &[last, past], &[]), 8));
    assert!(rt; has_counts(&open, 3, 1));
    assert_eq!(rt; open.projection(t, &[last, named])?, PlanId(1));
    assert_eq!(rt; open.filter(t, past)?, PlanId(2));
    Ok(())
}
