//! Question 9: each table has room to its last place, and none after it.
use book::declaration::Book;
use entries::node::{ExprId, PlanId};
use std::test::Fail;
use trials::{first, has_counts, key, opened, refused_with, short_names};

#[test]
fn there_are_1024_expressions_and_not_1025(rt: HostRuntime) -> Result<(), Fail> {
    let mut book = opened()?;
    for _ in 0..1023 {
        let _ = book.null()?;
    }
    assert_eq!(rt; book.whole(7)?, ExprId(1023));
    assert!(rt; refused_with(book.null(), 9));
    assert!(rt; refused_with(book.text(b"a"), 9));
    assert!(rt; refused_with(book.call(1, &[ExprId(1023)]), 9));
    assert!(rt; has_counts(&book, 1024, 0));
    assert_eq!(rt; book.table(b"t", b"a")?, PlanId(0));
    Ok(())
}

#[test]
fn there_are_128_nodes_and_not_129(rt: HostRuntime) -> Result<(), Fail> {
    let mut book = opened()?;
    let t = book.table(b"t", b"a")?;
    for _ in 0..126 {
        let _ = book.limit(t, 0, 1)?;
    }
    assert_eq!(rt; book.limit(t, 0, 1)?, PlanId(127));
    assert!(rt; refused_with(book.limit(t, 0, 1), 9));
    assert!(rt; refused_with(book.table(b"u", b"a"), 9));
    assert!(rt; has_counts(&book, 0, 128));
    assert_eq!(rt; book.null()?, ExprId(0));
    Ok(())
}

#[test]
fn there_are_2048_list_entries_and_not_2049(rt: HostRuntime) -> Result<(), Fail> {
    let mut book = opened()?;
    let e = book.null()?;
    for _ in 0..511 {
        let _ = book.call(4, &[e; 4])?;
    }
    assert_eq!(rt; book.call(3, &[e; 3])?, ExprId(512));
    assert!(rt; refused_with(book.call(2, &[e, e]), 9));
    assert_eq!(rt; book.call(1, &[e])?, ExprId(513));
    assert!(rt; refused_with(book.call(1, &[e]), 9));
    assert!(rt; has_counts(&book, 514, 0));
    assert_eq!(rt; book.call(0, &[])?, ExprId(514));
    Ok(())
}

#[test]
fn there_are_2048_fields_and_not_2049(rt: HostRuntime) -> Result<(), Fail> {
    let mut book = opened()?;
    let names = short_names();
    let t = book.table(b"t", first(&names, 127))?;
    for _ in 0..30 {
        let _ = book.limit(t, 0, 1)?;
    }
    assert_eq!(rt; book.table(b"u", first(&names, 125))?, PlanId(31));
    assert!(rt; refused_with(book.table(b"v", b"a,b"), 9));
    assert_eq!(rt; book.table(b"v", b"a")?, PlanId(32));
    assert!(rt; refused_with(book.limit(PlanId(32), 0, 1), 9));
    assert!(rt; has_counts(&book, 0, 33));
    assert_eq!(rt; book.null()?, ExprId(0));
    Ok(())
}

#[test]
fn there_are_16384_bytes_of_text_and_not_more(rt: HostRuntime) -> Result<(), Fail> {
    let mut book = Book::new().open();
    for _ in 0..64 {
        let _ = book.text(&[b'a'; 255])?;
    }
    assert!(rt; refused_with(book.text(&[b'b'; 65]), 9));
    assert_eq!(rt; book.text(&[b'b'; 64])?, ExprId(64));
    assert!(rt; refused_with(book.text(b"c"), 9));
    assert!(rt; refused_with(book.table(b"t", b"a"), 9));
    assert!(rt; has_counts(&book, 65, 0));
    assert_eq!(rt; book.whole(1)?, ExprId(65));
    Ok(())
}

#[test]
fn a_table_takes_its_qualifier_and_its_names_with_commas(rt: HostRuntime) -> Result<(), Fail> {
    let mut book = Book::new().open();
    let names = short_names();
    for _ in 0..64 {
        let _ = book.text(&[b'a'; 255])?;
    }
    assert!(rt; refused_with(book.table(b"tt", first(&names, 63)), 9));
    assert!(rt; has_counts(&book, 64, 0));
    let t = book.table(b"t", first(&names, 63))?;
    assert!(rt; refused_with(book.subquery_alias(t, b"s"), 9));
    assert!(rt; refused_with(book.alias(ExprId(0), b"a", None), 9));
    assert!(rt; refused_with(book.reference(b"a", None), 9));
    assert!(rt; has_counts(&book, 64, 1));
    assert_eq!(rt; book.limit(t, 0, 1)?, PlanId(1));
    Ok(())
}

#[test]
fn a_projection_takes_its_rendered_names(rt: HostRuntime) -> Result<(), Fail> {
    let mut book = Book::new().open();
    for _ in 0..64 {
        let _ = book.text(&[b'a'; 255])?;
    }
    let a = book.reference(b"a", None)?;
    let five = book.whole(-1234)?;
    let four = book.whole(1234)?;
    let one = book.whole(1)?;
    let t = book.table(b"t", b"a")?;
    assert_eq!(rt; book.text(&[b'b'; 57])?, ExprId(68));
    assert!(rt; refused_with(book.projection(t, &[five]), 9));
    assert!(rt; refused_with(book.projection(t, &[one, four]), 9));
    assert!(rt; has_counts(&book, 69, 1));
    assert_eq!(rt; book.projection(t, &[four])?, PlanId(1));
    assert!(rt; refused_with(book.projection(t, &[one]), 9));
    assert_eq!(rt; book.projection(t, &[a])?, PlanId(2));
    Ok(())
}

#[test]
fn the_lists_of_nodes_take_entries(rt: HostRuntime) -> Result<(), Fail> {
    let mut book = opened()?;
    let e = book.null()?;
    for _ in 0..508 {
        let _ = book.call(4, &[e; 4])?;
    }
    let _ = book.call(1, &[e])?;
    let t = book.table(b"t", b"a")?;
    assert!(rt; refused_with(book.sort(t, &[key(e); 16]), 9));
    assert_eq!(rt; book.sort(t, &[key(e); 15])?, PlanId(1));
    assert!(rt; refused_with(book.sort(t, &[key(e)]), 9));
    assert!(rt; refused_with(book.projection(t, &[e]), 9));
    assert!(rt; refused_with(book.aggregate(t, &[e], &[]), 9));
    assert!(rt; refused_with(book.union(&[t]), 9));
    assert!(rt; has_counts(&book, 510, 2));
    assert_eq!(rt; book.filter(t, e)?, PlanId(2));
    Ok(())
}

#[test]
fn every_number_takes_a_function_with_the_longest_name(rt: HostRuntime) -> Result<(), Fail> {
    let mut book = Book::new();
    for i in 0..64u8 {
        book.declare(i, &[b'f'; 255], 0, 0, false)?;
    }
    let mut open = book.open();
    assert!(rt; refused_with(open.text(&[b'b'; 65]), 9));
    assert_eq!(rt; open.text(&[b'b'; 64])?, ExprId(0));
    assert_eq!(rt; open.call(63, &[])?, ExprId(1));
    Ok(())
}
