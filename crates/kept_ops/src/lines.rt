ghost use Rattle.std.specs.Prelude.{◌≡◌, ◌≤◌};
ghost use Rattle.std.specs.Option.{option_copied};
ghost use Rattle.value_core.specs.declared.array.ArrayNode.TheVariants.{Empty};
ghost use Rattle.kept_ops.specs.Lines.{line_count, line_element, line_length};

use rectangle_core::Grid;
use value_core::ArrayNode;

/// A rectangle as its lines: its rows, or its columns.
#[derive(Drop)]
pub(crate) struct Lines<'a> {
    grid: &'a Grid,
    /// What is lent where there is no element.
    blank: &'a ArrayNode,
    by_column: bool,
    pub(crate) ghost is_blank: { blank.now ≡ Empty },
}

impl<'a> Lines<'a> {
    /// The lines of a rectangle.
    pub(crate) fn new(grid: &'a Grid, blank: &'a ArrayNode, by_column: bool) -> Lines<'a>
        requires { blank.now ≡ Empty }
        ensures grid { result.grid.now ≡ grid.now }
        ensures by_column { result.by_column ≡ by_column }
    {
        Lines {
            grid,
            blank,
            by_column,
        }
    }

    /// How many lines there are.
    pub(crate) fn count(&self) -> usize
        ensures count { result ≡ line_count self.now.by_column self.now.grid.now }
        ensures some { 1 ≤ result }
    {
        if self.by_column {
            self.grid.columns()
        } else {
            self.grid.rows()
        }
    }

    /// How many elements each line has.
    pub(crate) fn length(&self) -> usize
        ensures count { result ≡ line_length self.now.by_column self.now.grid.now }
        ensures some { 1 ≤ result }
    {
        if self.by_column {
            self.grid.rows()
        } else {
            self.grid.columns()
        }
    }

    /// The element at a place of a line, both from 0; a blank outside.
    pub(crate) fn get(&self, line: usize, place: usize) -> &'a ArrayNode
        ensures { result.now ≡ line_element self.now.by_column self.now.grid.now line place }
    {
        let found = if self.by_column {
            self.grid.get(place, line)
        } else {
            self.grid.get(line, place)
        };
        match found {
            Some(element) => element,
            None => self.blank,
        }
    }
}
