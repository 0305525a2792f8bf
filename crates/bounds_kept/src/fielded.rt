//! Questions 6 and 7: references resolve, and fields can stand together.
use entries::node::PlanId;
use std::test::Fail;
use trials::{TOTAL, has_counts, key, opened, refused_with};

#[test]
fn a_reference_resolves_in_a_field_of_the_input(rt: HostRuntime) -> Result<(), Fail> {
    let mut book = opened()?;
    let a = book.reference(b"a", None)?;
    let b = book.reference(b"b", None)?;
    let ta = book.reference(b"a", Some(b"t"))?;
    let ua = book.reference(b"a", Some(b"u"))?;
    let inside = book.call(1, &[b])?;
    let t = book.table(b"t", b"a")?;
    assert!(rt; refused_with(book.filter(t, b), 6));
    assert!(rt; refused_with(book.filter(t, ua), 6));
    assert!(rt; refused_with(book.filter(t, inside), 6));
    assert!(rt; refused_with(book.projection(t, &[a, b]), 6));
    assert!(rt; refused_with(book.aggregate(t, &[b], &[]), 6));
    assert!(rt; has_counts(&book, 5, 1));
    assert_eq!(rt; book.filter(t, a)?, PlanId(1));
    assert_eq!(rt; book.filter(t, ta)?, PlanId(2));
    Ok(())
}

#[test]
fn a_reference_without_a_qualifier_resolves_in_one_field_only(rt: HostRuntime) -> Result<(), Fail> {
    let mut book = opened()?;
    let a = book.reference(b"a", None)?;
    let ta = book.reference(b"a", Some(b"t"))?;
    let b = book.reference(b"b", None)?;
    let t = book.table(b"t", b"a")?;
    let u = book.table(b"u", b"a,b")?;
    assert!(rt; refused_with(book.join(0, t, u, &[a]), 6));
    assert!(rt; refused_with(book.join(4, t, u, &[a]), 6));
    assert_eq!(rt; book.join(0, t, u, &[ta, b])?, PlanId(2));
    assert!(rt; refused_with(book.filter(PlanId(2), a), 6));
    assert!(rt; has_counts(&book, 3, 3));
    assert_eq!(rt; book.filter(PlanId(2), ta)?, PlanId(3));
    assert_eq!(rt; book.join(4, t, u, &[b])?, PlanId(4));
    assert!(rt; refused_with(book.filter(PlanId(4), b), 6));
    assert_eq!(rt; book.filter(PlanId(4), a)?, PlanId(5));
    Ok(())
}

#[test]
fn a_projection_shows_no_name_twice(rt: HostRuntime) -> Result<(), Fail> {
    let mut book = opened()?;
    let e = book.whole(1)?;
    let x = book.alias(e, b"x", None)?;
    let y = book.alias(e, b"y", None)?;
    let qx = book.alias(e, b"x", Some(b"q"))?;
    let rx = book.alias(e, b"x", Some(b"r"))?;
    let t = book.table(b"t", b"a")?;
    assert!(rt; refused_with(book.projection(t, &[x, x]), 7));
    assert!(rt; refused_with(book.projection(t, &[x, y, x]), 7));
    assert!(rt; refused_with(book.projection(t, &[x, qx]), 7));
    assert!(rt; refused_with(book.projection(t, &[qx, qx]), 7));
    assert!(rt; has_counts(&book, 5, 1));
    assert_eq!(rt; book.projection(t, &[x, y])?, PlanId(1));
    assert_eq!(rt; book.projection(t, &[qx, rx])?, PlanId(2));
    Ok(())
}

#[test]
fn a_node_shows_no_field_twice(rt: HostRuntime) -> Result<(), Fail> {
    let mut book = opened()?;
    assert!(rt; refused_with(book.table(b"t", b"a,a"), 7));
    let t = book.table(b"t", b"a")?;
    let u = book.table(b"u", b"a")?;
    assert!(rt; refused_with(book.join(0, t, t, &[]), 7));
    assert!(rt; refused_with(book.join(7, t, t, &[]), 7));
    let both = book.join(0, t, u, &[])?;
    assert!(rt; refused_with(book.subquery_alias(both, b"s"), 7));
    assert!(rt; refused_with(book.union(&[both, both]), 7));
    assert!(rt; has_counts(&book, 0, 3));
    assert_eq!(rt; book.subquery_alias(t, b"s")?, PlanId(3));
    assert_eq!(rt; book.union(&[t, u])?, PlanId(4));
    Ok(())
}

#[test]
fn keys_and_totals_resolve_too(rt: HostRuntime) -> Result<(), Fail> {
    let mut book = opened()?;
    let a = book.reference(b"a", None)?;
    let b = book.reference(b"b", None)?;
    let sum_a = book.call(TOTAL, &[a])?;
    let sum_b = book.call(TOTAL, &[b])?;
    let t = book.table(b"t", b"a")?;
    assert!(rt; refused_with(book.sort(t, &[key(b)]), 6));
    assert!(rt; refused_with(book.aggregate(t, &[a], &[sum_b]), 6));
    assert!(rt; has_counts(&book, 4, 1));
    assert_eq!(rt; book.sort(t, &[key(a)])?, PlanId(1));
    assert_eq!(rt; book.aggregate(t, &[a], &[sum_a])?, PlanId(2));
    Ok(())
}
