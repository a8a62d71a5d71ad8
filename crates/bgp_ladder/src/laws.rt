//! Laws of ladders, each on a function that does nothing.

ghost use Rattle.bgp_ladder.specs.Ladder.{RowsAreNotPrinted};
ghost use Rattle.bgp_ladder.specs.Possible.{EachLineHasARow};

/// No row is a line that is printed as text: whoever reads these lines in a report doesn't read the
/// ladders.
pub fn rows_are_not_printed()
    ensures { RowsAreNotPrinted }
{}

/// Each line that says what could have come has a row, in their order, and there are no others.
pub fn each_line_has_a_row()
    ensures { EachLineHasARow }
{}
