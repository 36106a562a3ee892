ghost use Rattle.std.specs.Prelude.{◌≡◌, IfOk};
ghost use Rattle.call_core.specs.declared.function.Function.TheVariants.{Filter, Sequence, Tocol, Torow, Trimrange, Unique};
ghost use Rattle.eval_core.specs.Answer.{called};
ghost use Rattle.eval_core.specs.Setting.{setting};

use crate::evaluation::called;
use crate::evaluator::Evaluator;
use book_core::Reads;
use call_core::{Function, Steps};
use grid_core::CalcResult;
use kind_table::Kinds;
use std::alloc::Global;
use tree_core::Nodes;
use value_core::{CellReferenceIndex, Memory};

/// UNIQUE: the rows or columns of an array whose key comes first, or once. What the call answers over its arguments in a cell, in context.
pub fn fn_unique<K: Kinds, B: Reads<L>, L>(
    evaluator: &Evaluator<K, B>,
    alloc: Global,
    args: &Nodes,
    cell: CellReferenceIndex,
    steps: &mut Steps<L>,
) -> Result<CalcResult, Memory>
    ensures { IfOk result (λ made. made ≡ called (setting (K.table evaluator.now.kinds.now) (B.contents evaluator.now.book.now) evaluator.now.limit cell) Unique args.now) }
{
    called(evaluator, alloc, Function::Unique, args, cell, steps)
}

/// FILTER: the rows or columns of an array that a mask keeps. What the call answers over its arguments in a cell, in context.
pub fn fn_filter<K: Kinds, B: Reads<L>, L>(
    evaluator: &Evaluator<K, B>,
    alloc: Global,
    args: &Nodes,
    cell: CellReferenceIndex,
    steps: &mut Steps<L>,
) -> Result<CalcResult, Memory>
    ensures { IfOk result (λ made. made ≡ called (setting (K.table evaluator.now.kinds.now) (B.contents evaluator.now.book.now) evaluator.now.limit cell) Filter args.now) }
{
    called(evaluator, alloc, Function::Filter, args, cell, steps)
}

/// TOCOL: the elements of an array in one column. What the call answers over its arguments in a cell, in context.
pub fn fn_tocol<K: Kinds, B: Reads<L>, L>(
    evaluator: &Evaluator<K, B>,
    alloc: Global,
    args: &Nodes,
    cell: CellReferenceIndex,
    steps: &mut Steps<L>,
) -> Result<CalcResult, Memory>
    ensures { IfOk result (λ made. made ≡ called (setting (K.table evaluator.now.kinds.now) (B.contents evaluator.now.book.now) evaluator.now.limit cell) Tocol args.now) }
{
    called(evaluator, alloc, Function::Tocol, args, cell, steps)
}

/// TOROW: the elements of an array in one row. What the call answers over its arguments in a cell, in context.
pub fn fn_torow<K: Kinds, B: Reads<L>, L>(
    evaluator: &Evaluator<K, B>,
    alloc: Global,
    args: &Nodes,
    cell: CellReferenceIndex,
    steps: &mut Steps<L>,
) -> Result<CalcResult, Memory>
    ensures { IfOk result (λ made. made ≡ called (setting (K.table evaluator.now.kinds.now) (B.contents evaluator.now.book.now) evaluator.now.limit cell) Torow args.now) }
{
    called(evaluator, alloc, Function::Torow, args, cell, steps)
}

/// TRIMRANGE: an array without blank rows and columns at its ends. What the call answers over its arguments in a cell, in context.
pub fn fn_trimrange<K: Kinds, B: Reads<L>, L>(
    evaluator: &Evaluator<K, B>,
    alloc: Global,
    args: &Nodes,
    cell: CellReferenceIndex,
    steps: &mut Steps<L>,
) -> Result<CalcResult, Memory>
    ensures { IfOk result (λ made. made ≡ called (setting (K.table evaluator.now.kinds.now) (B.contents evaluator.now.book.now) evaluator.now.limit cell) Trimrange args.now) }
{
    called(evaluator, alloc, Function::Trimrange, args, cell, steps)
}

/// SEQUENCE: numbers that grow by a step. What the call answers over its arguments in a cell, in context.
pub fn fn_sequence<K: Kinds, B: Reads<L>, L>(
    evaluator: &Evaluator<K, B>,
    alloc: Global,
    args: &Nodes,
    cell: CellReferenceIndex,
    steps: &mut Steps<L>,
) -> Result<CalcResult, Memory>
    ensures { IfOk result (λ made. made ≡ called (setting (K.table evaluator.now.kinds.now) (B.contents evaluator.now.book.now) evaluator.now.limit cell) Sequence args.now) }
{
    called(evaluator, alloc, Function::Sequence, args, cell, steps)
}
