//! Swaps with their questions 1, 3, 5 and 9, and what the book tells of its nodes: traces, and whether two have one origin.
use book::declaration::Book;
use entries::node::{ExprId, PlanId};
use std::test::Fail;
use trials::{first, has_counts, key, opened, refused_with, short_names};

#[test]
fn a_swap_takes_the_last_node_and_none_after_it(rt: HostRuntime) -> Result<(), Fail> {
    let mut book = opened()?;
    let t = book.table(b"t", b"a")?;
    let l = book.limit(t, 0, 1)?;
    assert!(rt; refused_with(book.swap(PlanId(2), 0, t), 1));
    assert!(rt; refused_with(book.swap(l, 0, PlanId(2)), 1));
    assert!(rt; refused_with(book.swap(PlanId(u32::MAX), 1, t), 1));
    assert!(rt; refused_with(book.swap(t, 1, PlanId(u32::MAX)), 1));
    assert!(rt; has_counts(&book, 0, 2));
    assert_eq!(rt; book.swap(l, 0, t)?, PlanId(2));
    assert_eq!(rt; book.swap(PlanId(2), 0, t)?, PlanId(3));
    assert!(rt; has_counts(&book, 0, 4));
    Ok(())
}

#[test]
fn a_swap_takes_the_last_input_and_none_after_it(rt: HostRuntime) -> Result<(), Fail> {
    let mut book = opened()?;
    let t = book.table(b"t", b"a")?;
    let u = book.table(b"u", b"b")?;
    let l = book.limit(t, 0, 1)?;
    let j = book.join(0, t, u, &[])?;
    let w = book.union(&[u, u, u, u, u, u, u, t])?;
    assert!(rt; refused_with(book.swap(t, 0, t), 3));
    assert!(rt; refused_with(book.swap(l, 1, t), 3));
    assert!(rt; refused_with(book.swap(j, 2, u), 3));
    assert!(rt; refused_with(book.swap(w, 8, t), 3));
    assert!(rt; refused_with(book.swap(w, u32::MAX, u), 3));
    assert!(rt; has_counts(&book, 0, 5));
    assert_eq!(rt; book.swap(l, 0, t)?, PlanId(5));
    assert_eq!(rt; book.swap(j, 1, u)?, PlanId(6));
    assert_eq!(rt; book.swap(w, 7, t)?, PlanId(7));
    assert!(rt; has_counts(&book, 0, 8));
    Ok(())
}

#[test]
fn a_swap_takes_an_input_of_the_same_origin_and_no_other(rt: HostRuntime) -> Result<(), Fail> {
    let mut book = opened()?;
    let t = book.table(b"t", b"a")?;
    let u = book.table(b"u", b"b")?;
    let l = book.limit(t, 0, 1)?;
    let j = book.join(0, l, u, &[])?;
    assert!(rt; refused_with(book.swap(l, 0, u), 5));
    assert!(rt; refused_with(book.swap(l, 0, l), 5));
    assert!(rt; refused_with(book.swap(j, 0, t), 5));
    assert!(rt; refused_with(book.swap(j, 0, u), 5));
    assert!(rt; refused_with(book.swap(j, 1, l), 5));
    assert!(rt; has_counts(&book, 0, 4));
    let version = book.swap(l, 0, t)?;
    assert_eq!(rt; version, PlanId(4));
    assert!(rt; refused_with(book.swap(j, 1, version), 5));
    assert!(rt; refused_with(book.swap(version, 0, version), 5));
    assert!(rt; has_counts(&book, 0, 5));
    assert_eq!(rt; book.swap(j, 0, version)?, PlanId(5));
    assert_eq!(rt; book.swap(PlanId(5), 0, l)?, PlanId(6));
    Ok(())
}

#[test]
fn a_swap_asks_for_nodes_then_for_the_input_then_for_its_origin(
    rt: HostRuntime,
) -> Result<(), Fail> {
    let mut book = opened()?;
    let t = book.table(b"t", b"a")?;
    let u = book.table(b"u", b"b")?;
    let l = book.limit(t, 0, 1)?;
    for _ in 0..125 {
        let _ = book.limit(t, 0, 1)?;
    }
    assert!(rt; has_counts(&book, 0, 128));
    assert!(rt; refused_with(book.swap(l, 1, PlanId(128)), 1));
    assert!(rt; refused_with(book.swap(l, 1, u), 3));
    assert!(rt; refused_with(book.swap(l, 0, u), 5));
    assert!(rt; refused_with(book.swap(l, 0, t), 9));
    assert!(rt; has_counts(&book, 0, 128));
    Ok(())
}

#[test]
fn a_swap_takes_the_last_place_of_a_node_and_none_after_it(rt: HostRuntime) -> Result<(), Fail> {
    let mut book = opened()?;
    let t = book.table(b"t", b"a")?;
    for _ in 0..126 {
        let _ = book.limit(t, 0, 1)?;
    }
    assert!(rt; has_counts(&book, 0, 127));
    assert_eq!(rt; book.swap(PlanId(1), 0, t)?, PlanId(127));
    assert!(rt; refused_with(book.swap(PlanId(1), 0, t), 9));
    assert!(rt; refused_with(book.swap(PlanId(127), 0, t), 9));
    assert!(rt; has_counts(&book, 0, 128));
    assert_eq!(rt; book.null()?, ExprId(0));
    Ok(())
}

#[test]
fn a_swap_takes_the_lists_of_its_node_again(rt: HostRuntime) -> Result<(), Fail> {
    let mut book = opened()?;
    let e = book.null()?;
    for _ in 0..504 {
        let _ = book.call(4, &[e; 4])?;
    }
    let _ = book.call(1, &[e])?;
    let t = book.table(b"t", b"a")?;
    let ten = book.sort(t, &[key(e); 10])?;
    let eleven = book.sort(t, &[key(e); 11])?;
    let l = book.limit(t, 0, 1)?;
    assert!(rt; refused_with(book.swap(eleven, 0, t), 9));
    assert!(rt; has_counts(&book, 506, 4));
    assert_eq!(rt; book.swap(ten, 0, t)?, PlanId(4));
    assert!(rt; refused_with(book.swap(ten, 0, t), 9));
    assert!(rt; has_counts(&book, 506, 5));
    assert_eq!(rt; book.swap(l, 0, t)?, PlanId(5));
    Ok(())
}

#[test]
fn a_swap_takes_the_fields_of_its_node_again(rt: HostRuntime) -> Result<(), Fail> {
    let mut book = opened()?;
    let names = short_names();
    let t = book.table(b"t", first(&names, 127))?;
    for _ in 0..30 {
        let _ = book.limit(t, 0, 1)?;
    }
    let u = book.table(b"u", b"a")?;
    let narrow = book.limit(u, 0, 1)?;
    assert!(rt; refused_with(book.swap(PlanId(1), 0, t), 9));
    assert!(rt; has_counts(&book, 0, 33));
    for i in 33..95u32 {
        assert_eq!(rt; book.swap(narrow, 0, u)?, PlanId(i));
    }
    assert!(rt; refused_with(book.swap(narrow, 0, u), 9));
    assert!(rt; has_counts(&book, 0, 95));
    Ok(())
}

#[test]
fn a_swap_takes_the_name_of_its_node_again(rt: HostRuntime) -> Result<(), Fail> {
    let mut book = Book::new().open();
    for _ in 0..64 {
        let _ = book.text(&[b'a'; 255])?;
    }
    let t = book.table(b"t", b"a")?;
    let two = book.subquery_alias(t, b"bb")?;
    let three = book.subquery_alias(t, b"ccc")?;
    assert_eq!(rt; book.text(&[b'd'; 55])?, ExprId(64));
    assert!(rt; refused_with(book.swap(three, 0, t), 9));
    assert!(rt; has_counts(&book, 65, 3));
    assert_eq!(rt; book.swap(two, 0, t)?, PlanId(3));
    assert!(rt; refused_with(book.swap(two, 0, t), 9));
    assert!(rt; has_counts(&book, 65, 4));
    Ok(())
}

#[test]
fn what_a_swap_makes_has_the_origin_of_the_node_asked_about(rt: HostRuntime) -> Result<(), Fail> {
    let mut book = opened()?;
    let e = book.truth(true)?;
    let t = book.table(b"t", b"a")?;
    let l = book.limit(t, 0, 1)?;
    let f = book.filter(l, e)?;
    assert_eq!(rt; book.reader().plan(l)?.origin, PlanId(1));
    assert_eq!(rt; book.reader().plan(f)?.origin, PlanId(2));
    let lower = book.swap(l, 0, t)?;
    assert!(rt; has_counts(&book, 1, 4));
    let upper = book.swap(f, 0, lower)?;
    assert!(rt; has_counts(&book, 1, 5));
    let again = book.swap(upper, 0, l)?;
    assert!(rt; has_counts(&book, 1, 6));
    assert_eq!(rt; book.reader().plan(lower)?.origin, PlanId(1));
    assert_eq!(rt; book.reader().plan(upper)?.origin, PlanId(2));
    assert_eq!(rt; book.reader().plan(again)?.origin, PlanId(2));
    assert_eq!(rt; book.reader().plan(t)?.origin, PlanId(0));
    Ok(())
}

#[test]
fn a_trace_takes_a_node_that_is_there_and_a_good_name(rt: HostRuntime) -> Result<(), Fail> {
    let mut book = opened()?;
    let t = book.table(b"t", b"a")?;
    let reader = book.reader();
    assert!(rt; refused_with(reader.trace(PlanId(1), b"a"), 1));
    assert!(rt; refused_with(reader.trace(PlanId(u32::MAX), b""), 1));
    assert!(rt; refused_with(reader.trace(t, &[b'a'; 256]), 2));
    assert!(rt; refused_with(reader.trace(t, b"a,b"), 2));
    assert!(rt; refused_with(reader.trace(t, b"a\n"), 2));
    assert!(rt; refused_with(reader.trace(t, b""), 2));
    assert!(rt; has_counts(&book, 0, 1));
    assert_eq!(rt; reader.trace(t, &[b'a'; 255])?, None);
    Ok(())
}

#[test]
fn a_trace_answers_the_topmost_projection(rt: HostRuntime) -> Result<(), Fail> {
    let mut book = opened()?;
    let e = book.whole(1)?;
    let x = book.alias(e, b"x", None)?;
    let y = book.alias(e, b"y", None)?;
    let qy = book.alias(e, b"y", Some(b"q"))?;
    let t = book.table(b"t", b"a")?;
    let low = book.projection(t, &[x, y])?;
    let high = book.projection(low, &[e, qy])?;
    let l = book.limit(high, 0, 1)?;
    let reader = book.reader();
    assert_eq!(rt; reader.trace(l, b"y")?, Some(PlanId(2)));
    assert_eq!(rt; reader.trace(high, b"y")?, Some(PlanId(2)));
    assert_eq!(rt; reader.trace(low, b"y")?, Some(PlanId(1)));
    assert_eq!(rt; reader.trace(l, b"x")?, Some(PlanId(1)));
    assert_eq!(rt; reader.trace(l, b"z")?, None);
    assert_eq!(rt; reader.trace(l, b"a")?, None);
    assert_eq!(rt; reader.trace(t, b"y")?, None);
    assert!(rt; has_counts(&book, 4, 4));
    Ok(())
}

#[test]
fn a_trace_goes_through_inputs_from_left_to_right(rt: HostRuntime) -> Result<(), Fail> {
    let mut book = opened()?;
    let e = book.whole(1)?;
    let x = book.alias(e, b"x", None)?;
    let t = book.table(b"t", b"a")?;
    let one = book.projection(t, &[x])?;
    let two = book.projection(t, &[x])?;
    let g = book.aggregate(t, &[x], &[])?;
    let back = book.union(&[g, two, one])?;
    let last = book.union(&[t, g, one])?;
    let deep = book.union(&[last, two])?;
    let reader = book.reader();
    assert_eq!(rt; reader.trace(g, b"x")?, None);
    assert_eq!(rt; reader.trace(back, b"x")?, Some(PlanId(2)));
    assert_eq!(rt; reader.trace(last, b"x")?, Some(PlanId(1)));
    assert_eq!(rt; reader.trace(deep, b"x")?, Some(PlanId(1)));
    Ok(())
}

#[test]
fn nodes_of_one_origin_have_the_same_report_and_others_have_no_promise(
    rt: HostRuntime,
) -> Result<(), Fail> {
    let mut book = opened()?;
    let t = book.table(b"t", b"a")?;
    let l = book.limit(t, 0, 1)?;
    let other = book.limit(t, 0, 1)?;
    let version = book.swap(l, 0, t)?;
    assert!(rt; refused_with(book.same_report(PlanId(4), t), 1));
    assert!(rt; refused_with(book.same_report(t, PlanId(4)), 1));
    assert!(rt; refused_with(book.same_report(PlanId(4), PlanId(4)), 1));
    assert!(rt; has_counts(&book, 0, 4));
    assert!(rt; book.same_report(l, version)?);
    assert!(rt; book.same_report(version, l)?);
    assert!(rt; book.same_report(version, version)?);
    assert!(rt; !book.same_report(l, t)?);
    assert!(rt; !book.same_report(l, other)?);
    assert!(rt; !book.same_report(version, other)?);
    Ok(())
}
