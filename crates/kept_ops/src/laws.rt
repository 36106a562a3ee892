ghost use Rattle.std.specs.Prelude.{◌≡◌, ℤ, Bool, true, false, List};
ghost use Rattle.value_core.specs.declared.array.ArrayNode.{ArrayNode};
ghost use Rattle.value_core.specs.declared.position.CellReferenceIndex.{CellReferenceIndex};
ghost use Rattle.rectangle_core.specs.Rectangle.{IsRectangle};
ghost use Rattle.grid_core.specs.declared.calc_result.CalcResult.TheVariants.{Array};
ghost use Rattle.kept_ops.specs.Flatten.{flatten_of};
ghost use Rattle.kept_ops.specs.Transposed.{transposed};
ghost use Rattle.kept_ops.specs.Unique.{unique_of};

/// A law. The elements of a rectangle by columns are those of its transposed by rows, whatever is left out.
pub fn columns_are_the_rows_of_the_transposed()
    ensures { (cell : CellReferenceIndex) (ignore : ℤ) (as_column : Bool) (rows : List (List ArrayNode)) → IsRectangle rows → flatten_of cell ignore true as_column rows ≡ flatten_of cell ignore false as_column (transposed rows) }
{}

/// A law. The unique rows of what has unique rows are all of it.
pub fn what_is_unique_stays()
    ensures { (cell : CellReferenceIndex) (rows made : List (List ArrayNode)) → IsRectangle rows → unique_of cell false false rows ≡ Array made → unique_of cell false false made ≡ Array made }
{}
