ghost use Rattle.std.specs.Prelude.{◌≡◌, ◌≤◌, IfOk, IsTrue, Some, unsigned_abs};
ghost use Rattle.book_core.specs.Contents.{no_contents};
ghost use Rattle.argument_core.specs.Check.{Gives, after};
ghost use Rattle.array_functions.specs.Progression.{count_in, count_of, unless_large};
ghost use Rattle.nest_core.specs.Asked.{of_counts, sequence_asked, size_asked};
ghost use Rattle.nest_core.specs.Shown.{has_places, is_sheet_size, is_sound};

use crate::casts::number_or_one;
use crate::nest::Nest;
use argument_core::{Stop, one_to_four};
use array_ops::{checked, count_refused};
use number_core::floor;
use position_core::Size;
use result_core::Found;
use std::alloc::Global;
use value_core::CellReferenceIndex;

#[tactic(auto, using(crate::proofs::Sequences::sequences))]
fn count_of(number: i64) -> Result<i64, Stop>
    ensures count { Gives result (count_of number) }
    ensures some { IfOk result (λ count. 1 ≤ unsigned_abs count) }
{
    let count = floor(number);
    match count_refused(count) {
        Some(error) => Err(Stop::Wrong(error)),
        None => Ok(count),
    }
}

fn count_in(alloc: Global, cell: CellReferenceIndex, found: Option<Found>) -> Result<i64, Stop>
    ensures count { Gives result (count_in no_contents cell found) }
    ensures some { IfOk result (λ count. 1 ≤ unsigned_abs count) }
{
    let number = number_or_one(alloc, cell, found)?;
    let count = count_of(number)?;
    Ok(count)
}

#[tactic(auto, using(crate::proofs::Sequences::sequences))]
fn unless_large(limit: usize, rows: i64, columns: i64) -> Result<Size, Stop>
    requires some_row { 1 ≤ unsigned_abs rows }
    requires some_column { 1 ≤ unsigned_abs columns }
    ensures size { Gives result (after (unless_large limit rows columns) of_counts) }
    ensures places { IfOk result (λ size. IsTrue (has_places size)) }
    ensures sheet { IfOk result (λ size. IsTrue (is_sheet_size size)) }
{
    let height = rows.unsigned_abs() as usize;
    let width = columns.unsigned_abs() as usize;
    match checked(height, width, limit) {
        Some(error) => Err(Stop::Wrong(error)),
        None => Ok(Size {
            rows: height,
            columns: width,
        }),
    }
}

fn size_asked(
    alloc: Global,
    limit: usize,
    cell: CellReferenceIndex,
    first: Option<Found>,
    second: Option<Found>,
) -> Result<Size, Stop>
    ensures size { Gives result (size_asked no_contents limit cell first second) }
    ensures places { IfOk result (λ size. IsTrue (has_places size)) }
    ensures sheet { IfOk result (λ size. IsTrue (is_sheet_size size)) }
{
    let rows = count_in(alloc, cell, first)?;
    let columns = count_in(alloc, cell, second)?;
    let size = unless_large(limit, rows, columns)?;
    Ok(size)
}

/// The nest of a call of SEQUENCE, by its arguments, which are literals.
#[tactic(auto, using(crate::proofs::Sequences::sequences))]
pub(crate) fn sequence_asked(
    alloc: Global,
    limit: usize,
    cell: CellReferenceIndex,
    args: Vec<Found>,
) -> Result<Nest, Stop>
    ensures asked { Gives result (sequence_asked no_contents limit cell args.items) }
    ensures sound { IfOk result (λ nest. IsTrue (is_sound nest)) }
{
    let found = one_to_four(args)?;
    let size = size_asked(alloc, limit, cell, Some(found.first), found.second)?;
    let start = number_or_one(alloc, cell, found.third)?;
    let step = number_or_one(alloc, cell, found.fourth)?;
    Ok(Nest::Sequence { size, start, step })
}
