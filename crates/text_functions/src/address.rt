ghost use Rattle.std.specs.Prelude.{◌≡◌, IfOk};
ghost use Rattle.std.specs.Option.{option_copied};
ghost use Rattle.argument_core.specs.Check.{Gives};
ghost use Rattle.text_functions.specs.Address.{address_at, address_call, addressed, line_in, string_or_value, style_in, text_if, unless_below_one, unless_no_style};

use address_core::address_text;
use argument_core::{Stop, int_in, int_or, text_in, truth_or, two_to_five};
use book_core::Reads;
use call_core::Steps;
use grid_core::CalcResult;
use number_core::saturating_i64_to_i32;
use result_core::Found;
use std::alloc::Global;
use value_core::{CellReferenceIndex, Error, Text};

/// ADDRESS of two to five arguments: a row and a column, from 1; a style from 1 to 4, or 1; whether the cell stands by letters and
/// digits, as without an argument, or by `R` and `C`; and the name of a sheet, put in quotes where it needs them. `#VALUE!` for a
/// lesser row or column, any other style, and by letters for a column past the last one.
pub fn address_call<B: Reads<L>, L>(
    alloc: Global,
    book: &B,
    cell: CellReferenceIndex,
    args: Vec<Found>,
    steps: &mut Steps<L>,
) -> Result<CalcResult, Stop>
    ensures { Gives result (address_call (B.contents book.now) cell args.items) }
{
    let asked = two_to_five(args)?;
    let row = line_in(book, cell, asked.first, steps)?;
    let column = line_in(book, cell, asked.second, steps)?;
    let style = style_in(book, cell, asked.third, steps)?;
    let at = At { row, column, style };
    address_at(alloc, book, cell, at, asked.fourth, asked.fifth, steps)
}

/// A row, a column and a style.
#[derive(Clone, Copy)]
struct At {
    row: i64,
    column: i64,
    style: i64,
}

fn unless_below_one(number: i64) -> Result<i64, Stop>
    ensures { Gives result (unless_below_one number) }
{
    if 1 <= number {
        Ok(number)
    } else {
        Err(Stop::Wrong(Error::VALUE))
    }
}

fn line_in<B: Reads<L>, L>(
    book: &B,
    cell: CellReferenceIndex,
    found: Found,
    steps: &mut Steps<L>,
) -> Result<i64, Stop>
    ensures { Gives result (line_in (B.contents book.now) cell found) }
{
    let number = int_in(book, cell, found, steps)?;
    unless_below_one(number)
}

fn unless_no_style(number: i64) -> Result<i64, Stop>
    ensures { Gives result (unless_no_style number) }
{
    if 1 <= number && number <= 4 {
        Ok(number)
    } else {
        Err(Stop::Wrong(Error::VALUE))
    }
}

fn style_in<B: Reads<L>, L>(
    book: &B,
    cell: CellReferenceIndex,
    found: Option<Found>,
    steps: &mut Steps<L>,
) -> Result<i64, Stop>
    ensures { Gives result (style_in (B.contents book.now) cell found) }
{
    let number = int_or(book, cell, found, 1, steps)?;
    unless_no_style(number)
}

fn text_if<B: Reads<L>, L>(
    alloc: Global,
    book: &B,
    cell: CellReferenceIndex,
    found: Option<Found>,
    steps: &mut Steps<L>,
) -> Result<Option<Text>, Stop>
    ensures { Gives result (text_if (B.contents book.now) cell found) }
{
    match found {
        Some(found) => {
            let text = text_in(alloc, book, cell, found, steps)?;
            Ok(Some(text))
        }
        None => Ok(None),
    }
}

fn address_at<B: Reads<L>, L>(
    alloc: Global,
    book: &B,
    cell: CellReferenceIndex,
    at: At,
    fourth: Option<Found>,
    fifth: Option<Found>,
    steps: &mut Steps<L>,
) -> Result<CalcResult, Stop>
    ensures { Gives result (address_at (B.contents book.now) cell at.row at.column at.style fourth fifth) }
{
    let a1 = truth_or(book, cell, fourth, true, steps)?;
    let sheet = text_if(alloc, book, cell, fifth, steps)?;
    addressed(alloc, at, a1, sheet)
}

fn addressed(alloc: Global, at: At, a1: bool, sheet: Option<Text>) -> Result<CalcResult, Stop>
    ensures { Gives result (addressed at.row at.column at.style a1 sheet) }
{
    let row = saturating_i64_to_i32(at.row);
    let column = saturating_i64_to_i32(at.column);
    let style = saturating_i64_to_i32(at.style);
    let text = address_text(alloc, row, column, style, a1, as_str(&sheet))?;
    string_or_value(text)
}

fn as_str(text: &Option<Text>) -> Option<&str>
    ensures { option_copied result ≡ text.now }
{
    match text {
        Some(text) => Some(text.as_str()),
        None => None,
    }
}

fn string_or_value(text: Option<Text>) -> Result<CalcResult, Stop>
    ensures { Gives result (string_or_value text) }
{
    match text {
        Some(text) => Ok(CalcResult::String(text)),
        None => Err(Stop::Wrong(Error::VALUE)),
    }
}
