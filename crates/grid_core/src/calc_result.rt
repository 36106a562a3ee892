ghost use Rattle.std.specs.Prelude.{◌≡◌, ◌↔◌, IsTrue};

use rectangle_core::Grid;
use value_core::{CellReferenceIndex, Error, Text};

/// What a node evaluates to. A number is in millionths; the origin of an error is the cell of the formula.
#[derive(Debug, Drop)]
pub enum CalcResult {
    Number(i64),
    Boolean(bool),
    String(Text),
    Error {
        error: Error,
        origin: CellReferenceIndex,
    },
    Range {
        left: CellReferenceIndex,
        right: CellReferenceIndex,
    },
    Array(Grid),
    EmptyCell,
    EmptyArg,
}

impl CalcResult {
    /// Whether the two results are one: what `==` tells, with one clause.
    pub fn is(&self, other: &CalcResult) -> bool
        ensures { IsTrue result ↔ (self.now ≡ other.now) }
    {
        match (self, other) {
            (CalcResult::Number(number), CalcResult::Number(other)) => *number == *other,
            (CalcResult::Boolean(value), CalcResult::Boolean(other)) => *value == *other,
            (CalcResult::String(text), CalcResult::String(other)) => text.is(other),
            (
                CalcResult::Error { error, origin },
                CalcResult::Error {
                    error: other_error,
                    origin: other_origin,
                },
            ) => *error == *other_error && *origin == *other_origin,
            (
                CalcResult::Range { left, right },
                CalcResult::Range {
                    left: other_left,
                    right: other_right,
                },
            ) => *left == *other_left && *right == *other_right,
            (CalcResult::Array(grid), CalcResult::Array(other)) => grid.is(other),
            (CalcResult::EmptyCell, CalcResult::EmptyCell) => true,
            (CalcResult::EmptyArg, CalcResult::EmptyArg) => true,
            _ => false,
        }
    }
}

impl PartialEq for CalcResult {
    ghost use Rattle.own_items.specs.Sameness.{same, same-laws};
    ghost use Rattle.grid_core.specs.contracts.calc_result.CalcResult.{the_row};

    ghost eq = { same the_row.coded };

    ghost laws = { same-laws the_row.coded };

    /// Whether the two results are one, their origins included.
    fn eq(&self, other: &CalcResult) -> bool
        ensures same_value { IsTrue result ↔ (self.now ≡ other.now) }
        ensures same_code { result ≡ same the_row.coded self.now other.now }
    {
        self.is(other)
    }
}
