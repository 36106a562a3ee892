ghost use Rattle.kind_table.specs.OwnRow.{OwnRowsAreWellFormed, OwnRowsNeverRise};

/// Where the arguments show the same of themselves, the shape of a call of an own kind never rises when the shapes of its
/// arguments fall, and it is well formed where theirs are.
pub fn own_rows_keep_order()
    ensures never_rise { OwnRowsNeverRise }
    ensures well_formed { OwnRowsAreWellFormed }
{}
