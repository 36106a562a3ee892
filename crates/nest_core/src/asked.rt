//! What a call asks of arrays whose sizes are known: its checks, in their order.
ghost use Rattle.std.specs.Prelude.{◌≡◌, ◌<◌, Err, IfOk, length};
ghost use Rattle.value_core.specs.declared.error.Error.TheVariants.{NIMPL};
ghost use Rattle.argument_core.specs.declared.stop.Stop.TheVariants.{Wrong};
ghost use Rattle.book_core.specs.Contents.{no_contents};
ghost use Rattle.position_core.specs.Place.{HasNumbers};
ghost use Rattle.position_core.specs.declared.reshape.Reshape.TheVariants.{ChooseColumns, ChooseRows, WrapColumns, WrapRows};
ghost use Rattle.array_ops.specs.Reshaped.{not_available};
ghost use Rattle.argument_core.specs.Argument.{given_if};
ghost use Rattle.argument_core.specs.Check.{Gives, each};
ghost use Rattle.array_functions.specs.Parts.{choice_in, count_in};
ghost use Rattle.nest_core.specs.Asked.{arguments_refused, asked, asked_of, choice_asked, drop_asked, expand_asked, is_between, is_counted, plainly, take_asked, unless_block, wrap_asked, wrap_parts};

use crate::casts::{
    choice_of, count_if_any, count_of, int_if_any, int_of, pad_of, size_of, size_or_default,
};
use crate::plain::is_nest_kind;
use argument_core::{Stop, at_least_one, one_or_two, one_to_three};
use call_core::Function;
use position_core::{Numbers, Reshape, Size};
use result_core::Found;
use std::alloc::Global;
use value_core::{ArrayNode, CellReferenceIndex, Error};

/// A reshaping that a call asks for, and the element that fills the places without one.
#[derive(Debug, Drop)]
pub(crate) struct Asked {
    pub(crate) reshape: Reshape,
    pub(crate) pad: ArrayNode,
}

/// Lines of so many elements, and the element that fills the last of them.
#[derive(Debug, Drop)]
struct Wrapping {
    count: usize,
    pad: ArrayNode,
}

fn is_between(least: usize, most: usize, count: usize) -> bool
    ensures { result ≡ is_between least most count }
{
    least <= count && count <= most
}

fn is_counted(kind: Function, count: usize) -> bool
    ensures { result ≡ is_counted kind count }
{
    match kind {
        Function::Sequence => is_between(1, 4, count),
        Function::Take | Function::Drop | Function::Wrapcols | Function::Wraprows => {
            is_between(2, 3, count)
        }
        Function::Transpose => is_between(1, 1, count),
        Function::Expand => is_between(2, 4, count),
        Function::Hstack | Function::Vstack => 1 <= count,
        Function::Choosecols | Function::Chooserows => 2 <= count,
        _ => false,
    }
}

/// The error of a call that has not as many arguments as its kind takes, and of a kind that no plain nest calls.
pub fn arguments_refused(kind: Function, count: usize) -> Option<Error>
    ensures { result ≡ arguments_refused kind count }
{
    if is_nest_kind(kind) {
        if is_counted(kind, count) {
            None
        } else {
            Some(Error::ERROR)
        }
    } else {
        Some(Error::NIMPL)
    }
}

fn plainly(reshape: Reshape) -> Asked
    ensures { result ≡ asked reshape not_available }
{
    Asked {
        reshape,
        pad: ArrayNode::Error(Error::NA),
    }
}

fn take_asked(alloc: Global, cell: CellReferenceIndex, args: Vec<Found>) -> Result<Asked, Stop>
    ensures asked { Gives result (take_asked no_contents cell args.items) }
    ensures numbers { IfOk result (λ asked. HasNumbers asked.reshape) }
{
    let found = one_or_two(args)?;
    let rows = count_of(alloc, cell, found.first)?;
    let columns = count_if_any(alloc, cell, found.second)?;
    Ok(plainly(Reshape::Take { rows, columns }))
}

fn drop_asked(alloc: Global, cell: CellReferenceIndex, args: Vec<Found>) -> Result<Asked, Stop>
    ensures asked { Gives result (drop_asked no_contents cell args.items) }
    ensures numbers { IfOk result (λ asked. HasNumbers asked.reshape) }
{
    let found = one_or_two(args)?;
    let rows = int_of(alloc, cell, found.first)?;
    let columns = int_if_any(alloc, cell, found.second)?;
    Ok(plainly(Reshape::DropOff { rows, columns }))
}

fn expand_asked(
    alloc: Global,
    cell: CellReferenceIndex,
    width: usize,
    args: Vec<Found>,
) -> Result<Asked, Stop>
    ensures asked { Gives result (expand_asked no_contents cell width args.items) }
    ensures numbers { IfOk result (λ asked. HasNumbers asked.reshape) }
{
    let found = one_to_three(args)?;
    let rows = size_of(alloc, cell, found.first)?;
    let columns = size_or_default(alloc, cell, found.second, width)?;
    let pad = pad_of(alloc, cell, found.third)?;
    Ok(Asked {
        reshape: Reshape::Expand { rows, columns },
        pad,
    })
}

/// Numbers that each name one of so many lines, in their order.
#[tactic(auto, using(argument_core::proofs::Each::eaches))]
fn choices_of(
    alloc: Global,
    cell: CellReferenceIndex,
    total: usize,
    args: Vec<Found>,
) -> Result<Numbers, Stop>
    ensures numbers { Gives result (each (choice_in no_contents cell total) args.items) }
    ensures count { IfOk result (λ numbers. length numbers ≡ length args.items) }
{
    let mut numbers = Numbers::new(alloc);
    for arg in args {
        let number = choice_of(alloc, cell, total, arg)?;
        numbers.push(number)?;
    }
    Ok(numbers)
}

fn columns_asked(
    alloc: Global,
    cell: CellReferenceIndex,
    total: usize,
    args: Vec<Found>,
) -> Result<Asked, Stop>
    ensures asked { Gives result (choice_asked ChooseColumns no_contents cell total args.items) }
    ensures numbers { IfOk result (λ asked. HasNumbers asked.reshape) }
{
    let found = at_least_one(args)?;
    let numbers = choices_of(alloc, cell, total, found)?;
    Ok(plainly(Reshape::ChooseColumns { numbers }))
}

fn rows_asked(
    alloc: Global,
    cell: CellReferenceIndex,
    total: usize,
    args: Vec<Found>,
) -> Result<Asked, Stop>
    ensures asked { Gives result (choice_asked ChooseRows no_contents cell total args.items) }
    ensures numbers { IfOk result (λ asked. HasNumbers asked.reshape) }
{
    let found = at_least_one(args)?;
    let numbers = choices_of(alloc, cell, total, found)?;
    Ok(plainly(Reshape::ChooseRows { numbers }))
}

fn unless_block(size: Size) -> Result<Size, Stop>
    ensures { Gives result (unless_block size) }
{
    if size.rows == 1 || size.columns == 1 {
        Ok(size)
    } else {
        Err(Stop::Wrong(Error::VALUE))
    }
}

fn wrap_parts(
    alloc: Global,
    cell: CellReferenceIndex,
    size: Size,
    args: Vec<Found>,
) -> Result<Wrapping, Stop>
    ensures { Gives result (wrap_parts no_contents cell size args.items) }
{
    let _line = unless_block(size)?;
    let found = one_or_two(args)?;
    let count = size_of(alloc, cell, found.first)?;
    let pad = pad_of(alloc, cell, found.second)?;
    Ok(Wrapping { count, pad })
}

fn wrap_rows_asked(
    alloc: Global,
    cell: CellReferenceIndex,
    size: Size,
    args: Vec<Found>,
) -> Result<Asked, Stop>
    ensures asked { Gives result (wrap_asked WrapRows no_contents cell size args.items) }
    ensures numbers { IfOk result (λ asked. HasNumbers asked.reshape) }
{
    let Wrapping { count, pad } = wrap_parts(alloc, cell, size, args)?;
    let reshape = Reshape::WrapRows { count };
    Ok(Asked { reshape, pad })
}

fn wrap_columns_asked(
    alloc: Global,
    cell: CellReferenceIndex,
    size: Size,
    args: Vec<Found>,
) -> Result<Asked, Stop>
    ensures asked { Gives result (wrap_asked WrapColumns no_contents cell size args.items) }
    ensures numbers { IfOk result (λ asked. HasNumbers asked.reshape) }
{
    let Wrapping { count, pad } = wrap_parts(alloc, cell, size, args)?;
    let reshape = Reshape::WrapColumns { count };
    Ok(Asked { reshape, pad })
}

/// What a call asks of its arrays, by their sizes and its other arguments, which are literals.
pub(crate) fn asked_of(
    alloc: Global,
    cell: CellReferenceIndex,
    kind: Function,
    sizes: &[Size],
    args: Vec<Found>,
) -> Result<Asked, Stop>
    requires { 0 < length sizes.now }
    ensures asked { Gives result (asked_of no_contents cell kind sizes.now args.items) }
    ensures numbers { IfOk result (λ asked. HasNumbers asked.reshape) }
{
    let size = sizes[0];
    match kind {
        Function::Take => take_asked(alloc, cell, args),
        Function::Drop => drop_asked(alloc, cell, args),
        Function::Transpose => unasked(args, Reshape::Transpose),
        Function::Expand => expand_asked(alloc, cell, size.columns, args),
        Function::Hstack => unasked(args, Reshape::Hstack),
        Function::Vstack => unasked(args, Reshape::Vstack),
        Function::Choosecols => columns_asked(alloc, cell, size.columns, args),
        Function::Chooserows => rows_asked(alloc, cell, size.rows, args),
        Function::Wrapcols => wrap_columns_asked(alloc, cell, size, args),
        Function::Wraprows => wrap_rows_asked(alloc, cell, size, args),
        _ => unwritten(args),
    }
}

/// A call that asks for nothing beside its arrays.
fn unasked(args: Vec<Found>, reshape: Reshape) -> Result<Asked, Stop>
    requires { HasNumbers reshape }
    ensures asked { Gives result (plainly reshape) }
    ensures numbers { IfOk result (λ asked. HasNumbers asked.reshape) }
{
    drop(args);
    Ok(plainly(reshape))
}

fn unwritten(args: Vec<Found>) -> Result<Asked, Stop>
    ensures { result ≡ Err (Wrong NIMPL) }
{
    drop(args);
    Err(Stop::Wrong(Error::NIMPL))
}
