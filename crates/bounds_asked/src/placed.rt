//! Question 4: totals stand among the totals of an Aggregate, and nothing else does.
use entries::node::{ExprId, PlanId};
use std::test::Fail;
use trials::{TOTAL, has_counts, key, opened, refused_with};

#[test]
fn a_total_is_no_argument(rt: HostRuntime) -> Result<(), Fail> {
    let mut book = opened()?;
    let e = book.whole(1)?;
    let sum = book.call(TOTAL, &[e])?;
    let named = book.alias(sum, b"sum", None)?;
    assert!(rt; refused_with(book.call(1, &[sum]), 4));
    assert!(rt; refused_with(book.call(1, &[named]), 4));
    assert!(rt; refused_with(book.call(2, &[e, sum]), 4));
    assert!(rt; refused_with(book.call(TOTAL, &[sum]), 4));
    assert!(rt; has_counts(&book, 3, 0));
    assert_eq!(rt; book.call(2, &[e, e])?, ExprId(3));
    Ok(())
}

#[test]
fn a_total_is_in_no_other_list(rt: HostRuntime) -> Result<(), Fail> {
    let mut book = opened()?;
    let e = book.whole(1)?;
    let sum = book.call(TOTAL, &[e])?;
    let named = book.alias(sum, b"sum", None)?;
    let t = book.table(b"t", b"a")?;
    let u = book.table(b"u", b"a")?;
    assert!(rt; refused_with(book.filter(t, sum), 4));
    assert!(rt; refused_with(book.filter(t, named), 4));
    assert!(rt; refused_with(book.projection(t, &[e, sum]), 4));
    assert!(rt; refused_with(book.sort(t, &[key(sum)]), 4));
    assert!(rt; refused_with(book.join(0, t, u, &[sum]), 4));
    assert!(rt; has_counts(&book, 3, 2));
    assert_eq!(rt; book.filter(t, e)?, PlanId(2));
    Ok(())
}

#[test]
fn totals_stand_among_totals_and_groups_among_groups(rt: HostRuntime) -> Result<(), Fail> {
    let mut book = opened()?;
    let e = book.whole(1)?;
    let sum = book.call(TOTAL, &[e])?;
    let named = book.alias(sum, b"sum", None)?;
    let t = book.table(b"t", b"a")?;
    assert!(rt; refused_with(book.aggregate(t, &[sum], &[]), 4));
    assert!(rt; refused_with(book.aggregate(t, &[e, named], &[sum]), 4));
    assert!(rt; refused_with(book.aggregate(t, &[], &[e]), 4));
    assert!(rt; refused_with(book.aggregate(t, &[], &[sum, e]), 4));
    assert!(rt; has_counts(&book, 3, 1));
    assert_eq!(rt; book.aggregate(t, &[e], &[sum, named])?, PlanId(1));
    Ok(())
}
