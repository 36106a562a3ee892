ghost use Rattle.array_laws.specs.Law.{DropsWhatIsNotTaken, StacksTurnOver, TransposesBack, WrapsAlike};

/// TRANSPOSE of TRANSPOSE of an array is the array.
pub fn transpose_twice_is_the_array()
    ensures { TransposesBack }
{}

/// WRAPCOLS of a row or column is TRANSPOSE of its WRAPROWS with the same count and pad, where neither is refused.
pub fn columns_wrap_as_transposed_rows()
    ensures { WrapsAlike }
{}

/// VSTACK of TAKE and DROP of the same number of rows is the array, for a number from 1 to one less than its rows.
pub fn array_is_taken_and_dropped_rows()
    ensures { DropsWhatIsNotTaken }
{}

/// HSTACK of two arrays is TRANSPOSE of VSTACK of their transposes.
pub fn stacks_turn_over()
    ensures { StacksTurnOver }
{}
