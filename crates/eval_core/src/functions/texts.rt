ghost use Rattle.std.specs.Prelude.{◌≡◌, IfOk};
ghost use Rattle.call_core.specs.declared.function.Function.TheVariants.{Address, Arraytotext, Indirect, Textsplit};
ghost use Rattle.eval_core.specs.Answer.{called};
ghost use Rattle.eval_core.specs.Setting.{setting};

use crate::evaluation::called;
use crate::evaluator::Evaluator;
use book_core::Reads;
use call_core::{Function, Steps};
use grid_core::CalcResult;
use kind_table::Kinds;
use std::alloc::Global;
use tree_core::Nodes;
use value_core::{CellReferenceIndex, Memory};

/// INDIRECT: the range that a text means. What the call answers over its arguments in a cell, in context.
pub fn fn_indirect<K: Kinds, B: Reads<L>, L>(
    evaluator: &Evaluator<K, B>,
    alloc: Global,
    args: &Nodes,
    cell: CellReferenceIndex,
    steps: &mut Steps<L>,
) -> Result<CalcResult, Memory>
    ensures { IfOk result (λ made. made ≡ called (setting (K.table evaluator.now.kinds.now) (B.contents evaluator.now.book.now) evaluator.now.limit cell) Indirect args.now) }
{
    called(evaluator, alloc, Function::Indirect, args, cell, steps)
}

/// ADDRESS: the text of a reference to a cell. What the call answers over its arguments in a cell, in context.
pub fn fn_address<K: Kinds, B: Reads<L>, L>(
    evaluator: &Evaluator<K, B>,
    alloc: Global,
    args: &Nodes,
    cell: CellReferenceIndex,
    steps: &mut Steps<L>,
) -> Result<CalcResult, Memory>
    ensures { IfOk result (λ made. made ≡ called (setting (K.table evaluator.now.kinds.now) (B.contents evaluator.now.book.now) evaluator.now.limit cell) Address args.now) }
{
    called(evaluator, alloc, Function::Address, args, cell, steps)
}

/// ARRAYTOTEXT: an array as one text. What the call answers over its arguments in a cell, in context.
pub fn fn_arraytotext<K: Kinds, B: Reads<L>, L>(
    evaluator: &Evaluator<K, B>,
    alloc: Global,
    args: &Nodes,
    cell: CellReferenceIndex,
    steps: &mut Steps<L>,
) -> Result<CalcResult, Memory>
    ensures { IfOk result (λ made. made ≡ called (setting (K.table evaluator.now.kinds.now) (B.contents evaluator.now.book.now) evaluator.now.limit cell) Arraytotext args.now) }
{
    called(evaluator, alloc, Function::Arraytotext, args, cell, steps)
}

/// TEXTSPLIT: the pieces of a text between delimiters. What the call answers over its arguments in a cell, in context.
pub fn fn_textsplit<K: Kinds, B: Reads<L>, L>(
    evaluator: &Evaluator<K, B>,
    alloc: Global,
    args: &Nodes,
    cell: CellReferenceIndex,
    steps: &mut Steps<L>,
) -> Result<CalcResult, Memory>
    ensures { IfOk result (λ made. made ≡ called (setting (K.table evaluator.now.kinds.now) (B.contents evaluator.now.book.now) evaluator.now.limit cell) Textsplit args.now) }
{
    called(evaluator, alloc, Function::Textsplit, args, cell, steps)
}
