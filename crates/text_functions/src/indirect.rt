ghost use Rattle.std.specs.Prelude.{◌≡◌};
ghost use Rattle.argument_core.specs.Check.{Gives};
ghost use Rattle.text_functions.specs.Indirect.{indirect_call, meant, range_or_reference};

use argument_core::{Stop, one_or_two, text_in, truth_or};
use book_core::{Book, Reads};
use call_core::Steps;
use grid_core::CalcResult;
use reader_core::{read_a1, read_r1c1};
use result_core::Found;
use std::alloc::Global;
use value_core::{CellReferenceIndex, Error, Range};

/// INDIRECT of one or two arguments: the text of a reference, and whether it stands by letters and digits, as without an argument,
/// or by `R` and `C`. The range that it means; `#REF!` where it means none.
pub fn indirect_call<B: Reads<L>, L>(
    alloc: Global,
    book: &B,
    cell: CellReferenceIndex,
    args: Vec<Found>,
    steps: &mut Steps<L>,
) -> Result<CalcResult, Stop>
    ensures { Gives result (indirect_call (B.contents book.now) cell args.items) }
{
    let asked = one_or_two(args)?;
    let text = text_in(alloc, book, cell, asked.first, steps)?;
    let a1 = truth_or(book, cell, asked.second, true, steps)?;
    range_or_reference(meant(book, cell, a1, text.as_str()))
}

fn meant<B: Book>(book: &B, cell: CellReferenceIndex, a1: bool, text: &str) -> Option<Range>
    ensures { result ≡ meant (B.contents book.now) cell a1 text.now }
{
    if a1 {
        read_a1(book, cell.sheet, text)
    } else {
        read_r1c1(book, cell, text)
    }
}

fn range_or_reference(range: Option<Range>) -> Result<CalcResult, Stop>
    ensures { Gives result (range_or_reference range) }
{
    match range {
        Some(range) => Ok(CalcResult::Range {
            left: range.left,
            right: range.right,
        }),
        None => Err(Stop::Wrong(Error::REF)),
    }
}
