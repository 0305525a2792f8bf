//! Question 2: names and text literals are well formed.
use book::declaration::Book;
use entries::node::{ExprId, PlanId};
use std::test::Fail;
use trials::{has_counts, opened, refused_with};

#[test]
fn a_reference_has_names_of_255_bytes_and_not_of_256(rt: HostRuntime) -> Result<(), Fail> {
    let mut book = opened()?;
    assert!(rt; refused_with(book.reference(&[b'a'; 256], None), 2));
    assert!(rt; refused_with(book.reference(b"a", Some(&[b'q'; 256])), 2));
    assert!(rt; has_counts(&book, 0, 0));
    assert_eq!(rt;
        book.reference(&[b'a'; 255], Some(&[b'q'; 255]))?,
        ExprId(0)
    );
    assert_eq!(rt; book.reference(&[b'a'; 1], None)?, ExprId(1));
    Ok(())
}

#[test]
fn a_literal_and_an_alias_have_255_bytes_and_not_256(rt: HostRuntime) -> Result<(), Fail> {
    let mut book = opened()?;
    assert!(rt; refused_with(book.text(&[b'a'; 256]), 2));
    let e = book.text(&[b'a'; 255])?;
    assert!(rt; refused_with(book.alias(e, &[b'a'; 256], None), 2));
    assert!(rt; refused_with(book.alias(e, b"a", Some(&[b'q'; 256])), 2));
    assert!(rt; has_counts(&book, 1, 0));
    assert_eq!(rt; book.alias(e, &[b'a'; 255], Some(&[b'q'; 255]))?, ExprId(1));
    Ok(())
}

#[test]
fn a_node_has_names_of_255_bytes_and_not_of_256(rt: HostRuntime) -> Result<(), Fail> {
    let mut book = opened()?;
    assert!(rt; refused_with(book.table(&[b'q'; 256], b"a"), 2));
    assert!(rt; refused_with(book.table(b"q", &[b'a'; 256]), 2));
    assert!(rt; has_counts(&book, 0, 0));
    let t = book.table(&[b'q'; 255], &[b'a'; 255])?;
    assert!(rt; refused_with(book.subquery_alias(t, &[b's'; 256]), 2));
    assert!(rt; has_counts(&book, 0, 1));
    assert_eq!(rt; book.subquery_alias(t, &[b's'; 255])?, PlanId(1));
    Ok(())
}

#[test]
fn empty_names_are_refused(rt: HostRuntime) -> Result<(), Fail> {
    let mut book = opened()?;
    assert!(rt; refused_with(book.text(b""), 2));
    assert!(rt; refused_with(book.reference(b"", None), 2));
    assert!(rt; refused_with(book.reference(b"a", Some(b"")), 2));
    assert!(rt; refused_with(book.table(b"", b"a"), 2));
    assert!(rt; refused_with(book.table(b"t", b""), 2));
    assert!(rt; refused_with(book.table(b"t", b"a,"), 2));
    assert!(rt; refused_with(book.table(b"t", b",a"), 2));
    assert!(rt; refused_with(book.table(b"t", b"a,,b"), 2));
    assert!(rt; has_counts(&book, 0, 0));
    assert_eq!(rt; book.table(b"t", b"a,b")?, PlanId(0));
    Ok(())
}

#[test]
fn a_comma_and_a_line_feed_are_refused_and_their_neighbours_are_not(
    rt: HostRuntime,
) -> Result<(), Fail> {
    let mut book = opened()?;
    assert!(rt; refused_with(book.text(b"a,b"), 2));
    assert!(rt; refused_with(book.text(b"a\n"), 2));
    assert!(rt; refused_with(book.reference(b",", None), 2));
    assert!(rt; refused_with(book.reference(b"a", Some(b"\n")), 2));
    assert!(rt; refused_with(book.table(b"t,u", b"a"), 2));
    assert!(rt; refused_with(book.table(b"t", b"a,\n"), 2));
    assert!(rt; has_counts(&book, 0, 0));
    assert_eq!(rt; book.text(b"+-\x09\x0b")?, ExprId(0));
    assert_eq!(rt; book.text(&[0, 255])?, ExprId(1));
    Ok(())
}

#[test]
fn the_number_after_the_prefix_has_nine_digits_at_most(rt: HostRuntime) -> Result<(), Fail> {
    let mut book = opened()?;
    assert!(rt; refused_with(book.text(b"__datafusion_extracted_1000000000"), 2));
    assert!(rt;
        refused_with(
            book.reference(b"__datafusion_extracted_1000000000", None),
            2,
        )
    );
    assert!(rt;
        refused_with(
            book.reference(b"a", Some(b"__datafusion_extracted_1000000000")),
            2,
        )
    );
    assert!(rt; refused_with(book.table(b"__datafusion_extracted_1000000000", b"a"), 2));
    assert!(rt; has_counts(&book, 0, 0));
    assert_eq!(rt; book.text(b"__datafusion_extracted_999999999")?, ExprId(0));
    assert_eq!(rt;
        book.reference(b"__datafusion_extracted_0000999999999", None)?,
        ExprId(1)
    );
    assert_eq!(rt; book.text(b"__datafusion_extracted1000000000")?, ExprId(2));
    assert_eq!(rt;
        book.text(b"__datafusion_extracted_1000000000a")?,
        ExprId(3)
    );
    Ok(())
}

#[test]
fn a_prefixed_alias_has_no_qualifier(rt: HostRuntime) -> Result<(), Fail> {
    let mut book = opened()?;
    let e = book.null()?;
    assert!(rt; refused_with(book.alias(e, b"__datafusion_extracted", Some(b"q")), 2));
    assert!(rt; refused_with(book.alias(e, b"__datafusion_extracted_7", Some(b"q")), 2));
    assert!(rt;
        refused_with(
            book.alias(e, b"__datafusion_extracted_1000000000", None),
            2,
        )
    );
    assert!(rt; has_counts(&book, 1, 0));
    assert_eq!(rt; book.alias(e, b"__datafusion_extracted", None)?, ExprId(1));
    assert_eq!(rt;
        book.alias(e, b"__datafusion_extracted_999999999", None)?,
        ExprId(2)
    );
    assert_eq!(rt;
        book.alias(e, b"__datafusion_extracte", Some(b"q"))?,
        ExprId(3)
    );
    Ok(())
}

#[test]
fn the_name_of_a_function_is_good_and_not_prefixed(rt: HostRuntime) -> Result<(), Fail> {
    let mut book = Book::new();
    assert!(rt; refused_with(book.declare(0, b"", 0, 0, false), 2));
    assert!(rt; refused_with(book.declare(0, b"a,b", 0, 0, false), 2));
    assert!(rt; refused_with(book.declare(0, &[b'f'; 256], 0, 0, false), 2));
    assert!(rt; refused_with(book.declare(0, b"__datafusion_extracted", 0, 0, false), 2));
    assert!(rt; refused_with(book.declare(0, b"__datafusion_extracted_7", 0, 0, false), 2));
    book.declare(0, &[b'f'; 255], 0, 0, false)?;
    book.declare(1, b"__datafusion_extracte", 0, 0, false)?;
    let mut open = book.open();
    assert_eq!(rt; open.call(0, &[])?, ExprId(0));
    assert_eq!(rt; open.call(1, &[])?, ExprId(1));
    Ok(())
}

#[test]
fn new_names_of_what_is_there_are_good(rt: HostRuntime) -> Result<(), Fail> {
    let mut book = opened()?;
    let e = book.null()?;
    let t = book.table(b"t", b"a")?;
    assert!(rt; refused_with(book.alias(e, b"", None), 2));
    assert!(rt; refused_with(book.alias(e, b"a,b", None), 2));
    assert!(rt; refused_with(book.alias(e, b"a", Some(b"")), 2));
    assert!(rt; refused_with(book.subquery_alias(t, b""), 2));
    assert!(rt; refused_with(book.subquery_alias(t, b"s\n"), 2));
    assert!(rt; has_counts(&book, 1, 1));
    assert_eq!(rt; book.alias(e, b"a", Some(b"b"))?, ExprId(1));
    assert_eq!(rt; book.subquery_alias(t, b"s")?, PlanId(1));
    Ok(())
}
