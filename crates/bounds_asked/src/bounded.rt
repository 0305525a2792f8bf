//! Question 3: counts, codes and function numbers keep their bounds.
use book::declaration::Book;
use entries::node::{ExprId, PlanId};
use std::test::Fail;
use stored::node::Key;
use trials::{NONE, first, has_counts, opened, refused_with, short_names, totals, wholes};

#[test]
fn a_function_has_a_number_to_63_four_arguments_and_a_rule_to_4(
    rt: HostRuntime,
) -> Result<(), Fail> {
    let mut book = Book::new();
    assert!(rt; refused_with(book.declare(64, b"f", 0, 0, false), 3));
    assert!(rt; refused_with(book.declare(63, b"f", 5, 0, false), 3));
    assert!(rt; refused_with(book.declare(63, b"f", 0, 5, false), 3));
    book.declare(63, b"f", 4, 4, true)?;
    assert!(rt; refused_with(book.declare(63, b"g", 4, 4, true), 3));
    book.declare(0, b"f", 0, 0, false)?;
    assert!(rt; refused_with(book.declare(0, b"f", 0, 0, false), 3));
    let mut open = book.open();
    assert_eq!(rt; open.call(0, &[])?, ExprId(0));
    Ok(())
}

#[test]
fn a_call_has_as_many_arguments_as_declared(rt: HostRuntime) -> Result<(), Fail> {
    let mut book = opened()?;
    let e = book.null()?;
    assert!(rt; refused_with(book.call(NONE, &[e]), 3));
    assert!(rt; refused_with(book.call(1, &[]), 3));
    assert!(rt; refused_with(book.call(1, &[e, e]), 3));
    assert!(rt; refused_with(book.call(4, &[e; 3]), 3));
    assert!(rt; refused_with(book.call(4, &[e; 5]), 3));
    assert!(rt; has_counts(&book, 1, 0));
    assert_eq!(rt; book.call(NONE, &[])?, ExprId(1));
    assert_eq!(rt; book.call(1, &[e])?, ExprId(2));
    assert_eq!(rt; book.call(4, &[e; 4])?, ExprId(3));
    Ok(())
}

#[test]
fn a_sort_has_16_keys_and_directions_to_3(rt: HostRuntime) -> Result<(), Fail> {
    let mut book = opened()?;
    let by = book.whole(1)?;
    let t = book.table(b"t", b"a")?;
    let last = Key { by, direction: 3 };
    let past = Key { by, direction: 4 };
    assert!(rt; refused_with(book.sort(t, &[]), 3));
    assert!(rt; refused_with(book.sort(t, &[last; 17]), 3));
    assert!(rt; refused_with(book.sort(t, &[past]), 3));
    assert!(rt; refused_with(book.sort(t, &[last, past]), 3));
    assert!(rt; has_counts(&book, 1, 1));
    assert_eq!(rt; book.sort(t, &[last])?, PlanId(1));
    assert_eq!(rt; book.sort(t, &[last; 16])?, PlanId(2));
    Ok(())
}

#[test]
fn a_projection_has_1_to_64_expressions(rt: HostRuntime) -> Result<(), Fail> {
    let mut book = opened()?;
    let list = wholes(&mut book)?;
    let t = book.table(b"t", b"a")?;
    assert!(rt; refused_with(book.projection(t, &[]), 3));
    assert!(rt; refused_with(book.projection(t, &list), 3));
    assert!(rt; has_counts(&book, 65, 1));
    assert_eq!(rt; book.projection(t, first(&list, 1))?, PlanId(1));
    assert_eq!(rt; book.projection(t, first(&list, 64))?, PlanId(2));
    Ok(())
}

#[test]
fn a_table_has_64_names_and_not_65(rt: HostRuntime) -> Result<(), Fail> {
    let mut book = opened()?;
    let names = short_names();
    assert!(rt; refused_with(book.table(b"t", &names), 3));
    assert!(rt; has_counts(&book, 0, 0));
    assert_eq!(rt; book.table(b"t", first(&names, 127))?, PlanId(0));
    assert_eq!(rt; book.table(b"u", first(&names, 1))?, PlanId(1));
    Ok(())
}

#[test]
fn an_aggregate_has_16_groups_and_one_expression_at_least(rt: HostRuntime) -> Result<(), Fail> {
    let mut book = opened()?;
    let list = wholes(&mut book)?;
    let t = book.table(b"t", b"a")?;
    assert!(rt; refused_with(book.aggregate(t, &[], &[]), 3));
    assert!(rt; refused_with(book.aggregate(t, first(&list, 17), &[]), 3));
    assert!(rt; has_counts(&book, 65, 1));
    assert_eq!(rt; book.aggregate(t, first(&list, 1), &[])?, PlanId(1));
    assert_eq!(rt; book.aggregate(t, first(&list, 16), &[])?, PlanId(2));
    Ok(())
}

#[test]
fn an_aggregate_has_16_totals_and_not_17(rt: HostRuntime) -> Result<(), Fail> {
    let mut book = opened()?;
    let list = wholes(&mut book)?;
    let sums = totals(&mut book, &list)?;
    let t = book.table(b"t", b"a")?;
    assert!(rt; refused_with(book.aggregate(t, &[], &sums), 3));
    assert!(rt; refused_with(book.aggregate(t, first(&list, 16), &sums), 3));
    assert!(rt; has_counts(&book, 82, 1));
    assert_eq!(rt; book.aggregate(t, &[], first(&sums, 1))?, PlanId(1));
    assert_eq!(rt;
        book.aggregate(t, first(&list, 16), first(&sums, 16))?,
        PlanId(2)
    );
    Ok(())
}

#[test]
fn a_join_has_a_kind_to_7_and_16_conditions(rt: HostRuntime) -> Result<(), Fail> {
    let mut book = opened()?;
    let e = book.truth(true)?;
    let t = book.table(b"t", b"a")?;
    let u = book.table(b"u", b"a")?;
    assert!(rt; refused_with(book.join(8, t, u, &[]), 3));
    assert!(rt; refused_with(book.join(255, t, u, &[]), 3));
    assert!(rt; refused_with(book.join(7, t, u, &[e; 17]), 3));
    assert!(rt; has_counts(&book, 1, 2));
    assert_eq!(rt; book.join(7, t, u, &[e; 16])?, PlanId(2));
    assert_eq!(rt; book.join(0, t, u, &[])?, PlanId(3));
    Ok(())
}

#[test]
fn a_union_has_1_to_8_inputs_of_equal_width(rt: HostRuntime) -> Result<(), Fail> {
    let mut book = opened()?;
    let one = book.table(b"t", b"a")?;
    let two = book.table(b"u", b"a,b")?;
    assert!(rt; refused_with(book.union(&[]), 3));
    assert!(rt; refused_with(book.union(&[one; 9]), 3));
    assert!(rt; refused_with(book.union(&[one, two]), 3));
    assert!(rt; refused_with(book.union(&[two, two, one]), 3));
    assert!(rt; has_counts(&book, 0, 2));
    assert_eq!(rt; book.union(&[one])?, PlanId(2));
    assert_eq!(rt; book.union(&[one; 8])?, PlanId(3));
    assert_eq!(rt; book.union(&[two, two])?, PlanId(4));
    Ok(())
}

#[test]
fn every_kind_and_every_direction_is_taken(rt: HostRuntime) -> Result<(), Fail> {
    let mut book = opened()?;
    let by = book.whole(1)?;
    let t = book.table(b"t", b"a")?;
    let u = book.table(b"u", b"a")?;
    for kind in 0..8u8 {
        let _ = book.join(kind, t, u, &[by])?;
    }
    for direction in 0..4u8 {
        let _ = book.sort(t, &[Key { by, direction }])?;
    }
    assert!(rt; has_counts(&book, 1, 14));
    Ok(())
}
