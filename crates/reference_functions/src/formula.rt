ghost use Rattle.std.specs.Prelude.{◌≡◌, option_map};
ghost use Rattle.argument_core.specs.Check.{Gives};
ghost use Rattle.reference_functions.specs.Formula.{formula_in, formula_text_call, text_or_none};

use argument_core::{Stop, one};
use book_core::{Book, line_count};
use grid_core::CalcResult;
use result_core::Found;
use std::alloc::Global;
use value_core::{CellReferenceIndex, Error, Text};

fn formula_text<B: Book>(
    alloc: Global,
    book: &B,
    cell: CellReferenceIndex,
) -> Result<CalcResult, Stop>
    ensures { Gives result (text_or_none ((B.contents book.now).formula cell)) }
{
    match book.formula(cell) {
        Some(text) => {
            let text = Text::from_text(alloc, text)?;
            Ok(CalcResult::String(text))
        }
        None => Err(Stop::Wrong(Error::NA)),
    }
}

fn formula_in<B: Book>(alloc: Global, book: &B, made: CalcResult) -> Result<CalcResult, Stop>
    ensures { Gives result (formula_in (B.contents book.now) made) }
{
    match made {
        CalcResult::Range { left, right } => {
            let is_one_row = line_count(left.row, right.row) == 1;
            let is_one_column = line_count(left.column, right.column) == 1;
            if is_one_row && is_one_column {
                formula_text(alloc, book, left)
            } else {
                Err(Stop::Wrong(Error::NIMPL))
            }
        }
        other => {
            drop(other);
            Err(Stop::Wrong(Error::ERROR))
        }
    }
}

/// FORMULATEXT of one argument, a reference to one cell: the text of its formula as the book has it, `#N/A` without one.
/// `#NIMPL!` for a reference to more cells, and `#ERROR!` for anything else, an error too. It reads no cell's value.
pub fn formula_text_call<B: Book>(
    alloc: Global,
    book: &B,
    args: Vec<Found>,
) -> Result<CalcResult, Stop>
    ensures { Gives result (formula_text_call (B.contents book.now) args.items) }
{
    let found = one(args)?;
    formula_in(alloc, book, found.into_reference())
}
