ghost use Rattle.std.specs.Prelude.{◌≡◌, ◌≤◌, Err, IfOk};
ghost use Rattle.argument_core.specs.Check.{Gives};
ghost use Rattle.argument_core.specs.declared.stop.Stop.TheVariants.{Wrong};
ghost use Rattle.value_core.specs.declared.error.Error.TheVariants.{NIMPL};
ghost use Rattle.own_functions.specs.Own.{own_call, own_found, own_result};

use argument_core::Stop;
use array_functions::{
    choose_columns_call, choose_rows_call, drop_call, expand_call, filter_call, hstack_call,
    sequence_call, take_call, to_column_call, to_row_call, transpose_call, trim_call, unique_call,
    vstack_call, wrap_columns_call, wrap_rows_call,
};
use book_core::Reads;
use call_core::{Function, Steps};
use grid_core::CalcResult;
use reference_functions::{
    areas_call, choose_call, column_call, columns_call, formula_text_call, index_call, offset_call,
    row_call, rows_call,
};
use result_core::{Found, wrong};
use std::alloc::Global;
use text_functions::{address_call, array_to_text_call, indirect_call, text_split_call};
use value_core::{CellReferenceIndex, Error, Memory};

fn own_call<B: Reads<L>, L>(
    alloc: Global,
    book: &B,
    limit: usize,
    cell: CellReferenceIndex,
    kind: Function,
    args: Vec<Found>,
    steps: &mut Steps<L>,
) -> Result<CalcResult, Stop>
    requires { limit ≤ 16777216 }
    ensures { Gives result (own_call (B.contents book.now) limit cell kind args.items) }
{
    match kind {
        Function::Unique => unique_call(alloc, book, cell, args, steps),
        Function::Filter => filter_call(alloc, book, cell, args, steps),
        Function::Take => take_call(alloc, book, cell, args, steps),
        Function::Drop => drop_call(alloc, book, cell, args, steps),
        Function::Expand => expand_call(alloc, book, limit, cell, args, steps),
        Function::Hstack => hstack_call(alloc, book, cell, args, steps),
        Function::Vstack => vstack_call(alloc, book, cell, args, steps),
        Function::Choosecols => choose_columns_call(alloc, book, cell, args, steps),
        Function::Chooserows => choose_rows_call(alloc, book, cell, args, steps),
        Function::Tocol => to_column_call(alloc, book, cell, args, steps),
        Function::Torow => to_row_call(alloc, book, cell, args, steps),
        Function::Transpose => transpose_call(alloc, book, cell, args, steps),
        Function::Trimrange => trim_call(alloc, book, cell, args, steps),
        Function::Wrapcols => wrap_columns_call(alloc, book, limit, cell, args, steps),
        Function::Wraprows => wrap_rows_call(alloc, book, limit, cell, args, steps),
        Function::Sequence => sequence_call(alloc, book, limit, cell, args, steps),
        Function::Index => index_call(alloc, book, cell, args, steps),
        Function::Offset => offset_call(book, cell, args, steps),
        Function::Choose => choose_call(alloc, book, cell, args, steps),
        Function::Row => row_call(alloc, cell, args),
        Function::Rows => rows_call(args),
        Function::Column => column_call(alloc, cell, args),
        Function::Columns => columns_call(args),
        Function::Areas => areas_call(alloc, book, cell, args, steps),
        Function::Formulatext => formula_text_call(alloc, book, args),
        Function::Indirect => indirect_call(alloc, book, cell, args, steps),
        Function::Address => address_call(alloc, book, cell, args, steps),
        Function::Arraytotext => array_to_text_call(alloc, book, cell, args, steps),
        Function::Textsplit => text_split_call(alloc, book, cell, args, steps),
        Function::Sort
        | Function::Sortby
        | Function::Let
        | Function::Lambda
        | Function::Map
        | Function::Reduce
        | Function::Scan
        | Function::Byrow
        | Function::Bycol
        | Function::Makearray
        | Function::Other(_) => unwritten(args),
    }
}

/// A kind without values here.
fn unwritten(args: Vec<Found>) -> Result<CalcResult, Stop>
    ensures { result ≡ Err (Wrong NIMPL) }
{
    drop(args);
    Err(Stop::Wrong(Error::NIMPL))
}

/// What a call of a kind with rules of its own answers, over what its arguments came to; the error of the first check that
/// fails comes from the formula's cell. No array that a size is asked of has more elements than the limit, which is at most
/// 16777216. A kind without values is `#NIMPL!`.
pub fn own_result<B: Reads<L>, L>(
    alloc: Global,
    book: &B,
    limit: usize,
    cell: CellReferenceIndex,
    kind: Function,
    args: Vec<Found>,
    steps: &mut Steps<L>,
) -> Result<CalcResult, Memory>
    requires { limit ≤ 16777216 }
    ensures { IfOk result (λ made. made ≡ own_result (B.contents book.now) limit cell kind args.items) }
{
    match own_call(alloc, book, limit, cell, kind, args, steps) {
        Ok(made) => Ok(made),
        Err(Stop::Wrong(error)) => Ok(wrong(cell, error)),
        Err(Stop::Memory) => Err(Memory),
    }
}

/// What such a call comes to: its answer, in context and with reference alike.
pub fn own_found<B: Reads<L>, L>(
    alloc: Global,
    book: &B,
    limit: usize,
    cell: CellReferenceIndex,
    kind: Function,
    args: Vec<Found>,
    steps: &mut Steps<L>,
) -> Result<Found, Memory>
    requires { limit ≤ 16777216 }
    ensures { IfOk result (λ found. found ≡ own_found (B.contents book.now) limit cell kind args.items) }
{
    let made = own_result(alloc, book, limit, cell, kind, args, steps)?;
    Ok(Found::Same(made))
}
