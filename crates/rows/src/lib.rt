//! The rows that plans mean. Each function stands for what its contract says.
#![tactic(auto)]

ghost use Rattle.rows.specs.Examples.{examples_hold};
ghost use Rattle.rows.specs.Theorems.{FiltersKeepBoth, LeftPadsInner, LiteralsAreThemselves, NullKeepingIsNull, RowsAreAsWide, SemiAndAntiSplit};
ghost use Rattle.std.specs.Prelude.{◌≡◌, true};

/// Every row of a plan has one value for each field.
pub fn rows_are_as_wide()
    ensures { RowsAreAsWide }
{}

/// A Filter over a Filter keeps the rows that pass both.
pub fn filters_keep_both()
    ensures { FiltersKeepBoth }
{}

/// A Left join has the Inner join's rows, and each left row without a match once, at its place.
pub fn left_pads_inner()
    ensures { LeftPadsInner }
{}

/// A semi join and an anti join share the rows of the side that they name.
pub fn semi_and_anti_split()
    ensures { SemiAndAntiSplit }
{}

/// A literal's value is the literal.
pub fn literals_are_themselves()
    ensures { LiteralsAreThemselves }
{}

/// A null-keeping expression is null on a row of nulls.
pub fn null_keeping_is_null()
    ensures { NullKeepingIsNull }
{}

/// Small plans have the rows that are written out for them.
pub fn examples_hold()
    ensures { examples_hold ≡ true }
{}
