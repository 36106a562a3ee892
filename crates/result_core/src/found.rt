ghost use Rattle.std.specs.Prelude.{◌≡◌, IfOk};
ghost use Rattle.result_core.specs.Finding.{in_context, of_value, result_of, value_found, value_of, with_reference, wrong};

use book_core::{Reads, grid_of_range};
use call_core::Steps;
use grid_core::CalcResult;
use rectangle_core::Value;
use std::alloc::Global;
use value_core::{ArrayNode, CellReferenceIndex, Error, Memory, Range};

/// What a part of a formula comes to. A cell is its value in context and the range of itself with reference; any other result
/// is the same both ways. So nothing is evaluated twice, and a cell is not read before its value is asked.
#[derive(Debug, Drop)]
pub enum Found {
    Cell(CellReferenceIndex),
    Same(CalcResult),
}

/// An error, which comes from the formula's cell.
pub fn wrong(cell: CellReferenceIndex, error: Error) -> CalcResult
    ensures { result ≡ wrong cell error }
{
    CalcResult::Error {
        error,
        origin: cell,
    }
}

/// An element as a result.
pub fn result_of(
    alloc: Global,
    cell: CellReferenceIndex,
    element: &ArrayNode,
) -> Result<CalcResult, Memory>
    ensures { IfOk result (λ made. made ≡ result_of cell element.now) }
{
    match element {
        ArrayNode::Number(number) => Ok(CalcResult::Number(*number)),
        ArrayNode::Boolean(value) => Ok(CalcResult::Boolean(*value)),
        ArrayNode::String(text) => Ok(CalcResult::String(text.try_clone(alloc)?)),
        ArrayNode::Error(error) => Ok(wrong(cell, *error)),
        ArrayNode::Empty => Ok(CalcResult::EmptyCell),
    }
}

/// A value as a result.
pub fn of_value(cell: CellReferenceIndex, value: Value) -> CalcResult
    ensures { result ≡ of_value cell value }
{
    match value {
        Value::One(ArrayNode::Number(number)) => CalcResult::Number(number),
        Value::One(ArrayNode::Boolean(value)) => CalcResult::Boolean(value),
        Value::One(ArrayNode::String(text)) => CalcResult::String(text),
        Value::One(ArrayNode::Error(error)) => wrong(cell, error),
        Value::One(ArrayNode::Empty) => CalcResult::EmptyCell,
        Value::Missing => CalcResult::EmptyArg,
        Value::Grid(grid) => CalcResult::Array(grid),
    }
}

/// A result as a value. A range is read, each of its cells once.
pub fn value_of<B: Reads<L>, L>(
    alloc: Global,
    book: &B,
    made: CalcResult,
    steps: &mut Steps<L>,
) -> Result<Value, Memory>
    ensures { IfOk result (λ value. value ≡ value_of (B.contents book.now) made) }
{
    match made {
        CalcResult::Number(number) => Ok(Value::One(ArrayNode::Number(number))),
        CalcResult::Boolean(value) => Ok(Value::One(ArrayNode::Boolean(value))),
        CalcResult::String(text) => Ok(Value::One(ArrayNode::String(text))),
        CalcResult::Error { error, .. } => Ok(Value::One(ArrayNode::Error(error))),
        CalcResult::Range { left, right } => {
            let grid = grid_of_range(alloc, book, Range { left, right }, steps)?;
            Ok(Value::Grid(grid))
        }
        CalcResult::Array(grid) => Ok(Value::Grid(grid)),
        CalcResult::EmptyCell => Ok(Value::One(ArrayNode::Empty)),
        CalcResult::EmptyArg => Ok(Value::Missing),
    }
}

impl Found {
    /// The result in context: of a cell its value, which is read.
    pub fn into_context<B: Reads<L>, L>(
        self,
        alloc: Global,
        book: &B,
        cell: CellReferenceIndex,
        steps: &mut Steps<L>,
    ) -> Result<CalcResult, Memory>
        ensures { IfOk result (λ made. made ≡ in_context (B.contents book.now) cell self) }
    {
        match self {
            Found::Cell(at) => {
                let made = result_of(alloc, cell, book.value(at, steps))?;
                Ok(made)
            }
            Found::Same(made) => Ok(made),
        }
    }

    /// The result with reference: of a cell the range of itself. It takes no memory.
    pub fn into_reference(self) -> CalcResult
        ensures { result ≡ with_reference self }
    {
        match self {
            Found::Cell(at) => CalcResult::Range {
                left: at,
                right: at,
            },
            Found::Same(made) => made,
        }
    }

    /// The value in context.
    pub fn into_value<B: Reads<L>, L>(
        self,
        alloc: Global,
        book: &B,
        cell: CellReferenceIndex,
        steps: &mut Steps<L>,
    ) -> Result<Value, Memory>
        ensures { IfOk result (λ value. value ≡ value_found (B.contents book.now) cell self) }
    {
        let made = self.into_context(alloc, book, cell, steps)?;
        let value = value_of(alloc, book, made, steps)?;
        Ok(value)
    }
}
