ghost use Rattle.std.specs.Prelude.{◌≡◌, IfOk};
ghost use Rattle.call_core.specs.declared.function.Function.TheVariants.{Choosecols, Chooserows, Drop, Expand, Hstack, Take, Transpose, Vstack, Wrapcols, Wraprows};
ghost use Rattle.eval_core.specs.Answer.{called};
ghost use Rattle.eval_core.specs.Setting.{setting};

use crate::evaluation::called;
use crate::evaluator::Evaluator;
use book_core::Reads;
use call_core::{Function, Steps};
use grid_core::CalcResult;
use kind_table::Kinds;
use std::alloc::Global;
use tree_core::Nodes;
use value_core::{CellReferenceIndex, Memory};

/// TAKE: the first or last rows and columns of an array. What the call answers over its arguments in a cell, in context.
pub fn fn_take<K: Kinds, B: Reads<L>, L>(
    evaluator: &Evaluator<K, B>,
    alloc: Global,
    args: &Nodes,
    cell: CellReferenceIndex,
    steps: &mut Steps<L>,
) -> Result<CalcResult, Memory>
    ensures { IfOk result (λ made. made ≡ called (setting (K.table evaluator.now.kinds.now) (B.contents evaluator.now.book.now) evaluator.now.limit cell) Take args.now) }
{
    called(evaluator, alloc, Function::Take, args, cell, steps)
}

/// DROP: an array without its first or last rows and columns. What the call answers over its arguments in a cell, in context.
pub fn fn_drop<K: Kinds, B: Reads<L>, L>(
    evaluator: &Evaluator<K, B>,
    alloc: Global,
    args: &Nodes,
    cell: CellReferenceIndex,
    steps: &mut Steps<L>,
) -> Result<CalcResult, Memory>
    ensures { IfOk result (λ made. made ≡ called (setting (K.table evaluator.now.kinds.now) (B.contents evaluator.now.book.now) evaluator.now.limit cell) Drop args.now) }
{
    called(evaluator, alloc, Function::Drop, args, cell, steps)
}

/// EXPAND: an array made larger with a pad. What the call answers over its arguments in a cell, in context.
pub fn fn_expand<K: Kinds, B: Reads<L>, L>(
    evaluator: &Evaluator<K, B>,
    alloc: Global,
    args: &Nodes,
    cell: CellReferenceIndex,
    steps: &mut Steps<L>,
) -> Result<CalcResult, Memory>
    ensures { IfOk result (λ made. made ≡ called (setting (K.table evaluator.now.kinds.now) (B.contents evaluator.now.book.now) evaluator.now.limit cell) Expand args.now) }
{
    called(evaluator, alloc, Function::Expand, args, cell, steps)
}

/// HSTACK: arrays side by side. What the call answers over its arguments in a cell, in context.
pub fn fn_hstack<K: Kinds, B: Reads<L>, L>(
    evaluator: &Evaluator<K, B>,
    alloc: Global,
    args: &Nodes,
    cell: CellReferenceIndex,
    steps: &mut Steps<L>,
) -> Result<CalcResult, Memory>
    ensures { IfOk result (λ made. made ≡ called (setting (K.table evaluator.now.kinds.now) (B.contents evaluator.now.book.now) evaluator.now.limit cell) Hstack args.now) }
{
    called(evaluator, alloc, Function::Hstack, args, cell, steps)
}

/// VSTACK: arrays below each other. What the call answers over its arguments in a cell, in context.
pub fn fn_vstack<K: Kinds, B: Reads<L>, L>(
    evaluator: &Evaluator<K, B>,
    alloc: Global,
    args: &Nodes,
    cell: CellReferenceIndex,
    steps: &mut Steps<L>,
) -> Result<CalcResult, Memory>
    ensures { IfOk result (λ made. made ≡ called (setting (K.table evaluator.now.kinds.now) (B.contents evaluator.now.book.now) evaluator.now.limit cell) Vstack args.now) }
{
    called(evaluator, alloc, Function::Vstack, args, cell, steps)
}

/// CHOOSECOLS: columns of an array by their numbers. What the call answers over its arguments in a cell, in context.
pub fn fn_choosecols<K: Kinds, B: Reads<L>, L>(
    evaluator: &Evaluator<K, B>,
    alloc: Global,
    args: &Nodes,
    cell: CellReferenceIndex,
    steps: &mut Steps<L>,
) -> Result<CalcResult, Memory>
    ensures { IfOk result (λ made. made ≡ called (setting (K.table evaluator.now.kinds.now) (B.contents evaluator.now.book.now) evaluator.now.limit cell) Choosecols args.now) }
{
    called(evaluator, alloc, Function::Choosecols, args, cell, steps)
}

/// CHOOSEROWS: rows of an array by their numbers. What the call answers over its arguments in a cell, in context.
pub fn fn_chooserows<K: Kinds, B: Reads<L>, L>(
    evaluator: &Evaluator<K, B>,
    alloc: Global,
    args: &Nodes,
    cell: CellReferenceIndex,
    steps: &mut Steps<L>,
) -> Result<CalcResult, Memory>
    ensures { IfOk result (λ made. made ≡ called (setting (K.table evaluator.now.kinds.now) (B.contents evaluator.now.book.now) evaluator.now.limit cell) Chooserows args.now) }
{
    called(evaluator, alloc, Function::Chooserows, args, cell, steps)
}

/// TRANSPOSE: an array with its rows as columns. What the call answers over its arguments in a cell, in context.
pub fn fn_transpose<K: Kinds, B: Reads<L>, L>(
    evaluator: &Evaluator<K, B>,
    alloc: Global,
    args: &Nodes,
    cell: CellReferenceIndex,
    steps: &mut Steps<L>,
) -> Result<CalcResult, Memory>
    ensures { IfOk result (λ made. made ≡ called (setting (K.table evaluator.now.kinds.now) (B.contents evaluator.now.book.now) evaluator.now.limit cell) Transpose args.now) }
{
    called(evaluator, alloc, Function::Transpose, args, cell, steps)
}

/// WRAPCOLS: a row or column in columns of so many. What the call answers over its arguments in a cell, in context.
pub fn fn_wrapcols<K: Kinds, B: Reads<L>, L>(
    evaluator: &Evaluator<K, B>,
    alloc: Global,
    args: &Nodes,
    cell: CellReferenceIndex,
    steps: &mut Steps<L>,
) -> Result<CalcResult, Memory>
    ensures { IfOk result (λ made. made ≡ called (setting (K.table evaluator.now.kinds.now) (B.contents evaluator.now.book.now) evaluator.now.limit cell) Wrapcols args.now) }
{
    called(evaluator, alloc, Function::Wrapcols, args, cell, steps)
}

/// WRAPROWS: a row or column in rows of so many. What the call answers over its arguments in a cell, in context.
pub fn fn_wraprows<K: Kinds, B: Reads<L>, L>(
    evaluator: &Evaluator<K, B>,
    alloc: Global,
    args: &Nodes,
    cell: CellReferenceIndex,
    steps: &mut Steps<L>,
) -> Result<CalcResult, Memory>
    ensures { IfOk result (λ made. made ≡ called (setting (K.table evaluator.now.kinds.now) (B.contents evaluator.now.book.now) evaluator.now.limit cell) Wraprows args.now) }
{
    called(evaluator, alloc, Function::Wraprows, args, cell, steps)
}
