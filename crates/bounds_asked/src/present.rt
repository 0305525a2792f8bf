//! Question 1: what a call names by number stands in the book.
use entries::node::{ExprId, PlanId};
use std::test::Fail;
use trials::{TOTAL, has_counts, key, opened, refused_with};

#[test]
fn an_expression_takes_the_last_expression_and_none_after_it(rt: HostRuntime) -> Result<(), Fail> {
    let mut book = opened()?;
    assert_eq!(rt; book.null()?, ExprId(0));
    assert!(rt; refused_with(book.alias(ExprId(1), b"a", None), 1));
    assert!(rt; refused_with(book.call(1, &[ExprId(1)]), 1));
    assert!(rt; refused_with(book.call(2, &[ExprId(0), ExprId(1)]), 1));
    assert!(rt; has_counts(&book, 1, 0));
    assert_eq!(rt; book.alias(ExprId(0), b"a", None)?, ExprId(1));
    assert_eq!(rt; book.call(2, &[ExprId(0), ExprId(1)])?, ExprId(2));
    Ok(())
}

#[test]
fn a_call_takes_the_last_function_and_none_after_it(rt: HostRuntime) -> Result<(), Fail> {
    let mut book = opened()?;
    let e = book.null()?;
    assert!(rt; refused_with(book.call(TOTAL + 1, &[e]), 1));
    assert!(rt; refused_with(book.call(63, &[e]), 1));
    assert!(rt; refused_with(book.call(64, &[e]), 1));
    assert!(rt; refused_with(book.call(255, &[e]), 1));
    assert!(rt; has_counts(&book, 1, 0));
    assert_eq!(rt; book.call(TOTAL, &[e])?, ExprId(1));
    Ok(())
}

#[test]
fn a_node_takes_the_last_node_and_none_after_it(rt: HostRuntime) -> Result<(), Fail> {
    let mut book = opened()?;
    let e = book.truth(true)?;
    assert!(rt; refused_with(book.limit(PlanId(0), 0, 0), 1));
    assert_eq!(rt; book.table(b"t", b"a")?, PlanId(0));
    assert!(rt; refused_with(book.limit(PlanId(1), 0, 0), 1));
    assert!(rt; refused_with(book.filter(PlanId(1), e), 1));
    assert!(rt; refused_with(book.projection(PlanId(1), &[e]), 1));
    assert!(rt; refused_with(book.sort(PlanId(1), &[key(e)]), 1));
    assert!(rt; refused_with(book.subquery_alias(PlanId(1), b"s"), 1));
    assert!(rt; has_counts(&book, 1, 1));
    assert_eq!(rt; book.limit(PlanId(0), 0, 0)?, PlanId(1));
    Ok(())
}

#[test]
fn nodes_of_several_inputs_take_the_last_node_and_none_after_it(
    rt: HostRuntime,
) -> Result<(), Fail> {
    let mut book = opened()?;
    let e = book.whole(7)?;
    let a = book.table(b"a", b"x")?;
    let b = book.table(b"b", b"y")?;
    assert!(rt; refused_with(book.aggregate(PlanId(2), &[e], &[]), 1));
    assert!(rt; refused_with(book.join(0, a, PlanId(2), &[]), 1));
    assert!(rt; refused_with(book.join(0, PlanId(2), a, &[]), 1));
    assert!(rt; refused_with(book.union(&[a, b, PlanId(2)]), 1));
    assert!(rt; has_counts(&book, 1, 2));
    assert_eq!(rt; book.join(0, a, b, &[])?, PlanId(2));
    assert_eq!(rt; book.union(&[a, b])?, PlanId(3));
    Ok(())
}

#[test]
fn a_node_takes_the_last_expression_and_none_after_it(rt: HostRuntime) -> Result<(), Fail> {
    let mut book = opened()?;
    let e = book.whole(7)?;
    let no = ExprId(1);
    let t = book.table(b"t", b"a")?;
    let u = book.table(b"u", b"b")?;
    assert!(rt; refused_with(book.filter(t, no), 1));
    assert!(rt; refused_with(book.projection(t, &[e, no]), 1));
    assert!(rt; refused_with(book.sort(t, &[key(no)]), 1));
    assert!(rt; refused_with(book.aggregate(t, &[no], &[]), 1));
    assert!(rt; refused_with(book.aggregate(t, &[e], &[no]), 1));
    assert!(rt; refused_with(book.join(0, t, u, &[no]), 1));
    assert!(rt; has_counts(&book, 1, 2));
    assert_eq!(rt; book.filter(t, e)?, PlanId(2));
    assert_eq!(rt; book.projection(t, &[e])?, PlanId(3));
    assert_eq!(rt; book.sort(t, &[key(e)])?, PlanId(4));
    assert_eq!(rt; book.aggregate(t, &[e], &[])?, PlanId(5));
    assert_eq!(rt; book.join(0, t, u, &[e])?, PlanId(6));
    Ok(())
}
