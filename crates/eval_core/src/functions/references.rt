ghost use Rattle.std.specs.Prelude.{◌≡◌, IfOk};
ghost use Rattle.call_core.specs.declared.function.Function.TheVariants.{Areas, Choose, Column, Columns, Formulatext, Index, Offset, Row, Rows};
ghost use Rattle.eval_core.specs.Answer.{called};
ghost use Rattle.eval_core.specs.Setting.{setting};

use crate::evaluation::called;
use crate::evaluator::Evaluator;
use book_core::Reads;
use call_core::{Function, Steps};
use grid_core::CalcResult;
use kind_table::Kinds;
use std::alloc::Global;
use tree_core::Nodes;
use value_core::{CellReferenceIndex, Memory};

/// INDEX: cells of a range or elements of an array by two numbers. What the call answers over its arguments in a cell, in context.
pub fn fn_index<K: Kinds, B: Reads<L>, L>(
    evaluator: &Evaluator<K, B>,
    alloc: Global,
    args: &Nodes,
    cell: CellReferenceIndex,
    steps: &mut Steps<L>,
) -> Result<CalcResult, Memory>
    ensures { IfOk result (λ made. made ≡ called (setting (K.table evaluator.now.kinds.now) (B.contents evaluator.now.book.now) evaluator.now.limit cell) Index args.now) }
{
    called(evaluator, alloc, Function::Index, args, cell, steps)
}

/// OFFSET: the range that lies so many rows and columns from a reference. What the call answers over its arguments in a cell, in context.
pub fn fn_offset<K: Kinds, B: Reads<L>, L>(
    evaluator: &Evaluator<K, B>,
    alloc: Global,
    args: &Nodes,
    cell: CellReferenceIndex,
    steps: &mut Steps<L>,
) -> Result<CalcResult, Memory>
    ensures { IfOk result (λ made. made ≡ called (setting (K.table evaluator.now.kinds.now) (B.contents evaluator.now.book.now) evaluator.now.limit cell) Offset args.now) }
{
    called(evaluator, alloc, Function::Offset, args, cell, steps)
}

/// CHOOSE: the choice that a number names. What the call answers over its arguments in a cell, in context.
pub fn fn_choose<K: Kinds, B: Reads<L>, L>(
    evaluator: &Evaluator<K, B>,
    alloc: Global,
    args: &Nodes,
    cell: CellReferenceIndex,
    steps: &mut Steps<L>,
) -> Result<CalcResult, Memory>
    ensures { IfOk result (λ made. made ≡ called (setting (K.table evaluator.now.kinds.now) (B.contents evaluator.now.book.now) evaluator.now.limit cell) Choose args.now) }
{
    called(evaluator, alloc, Function::Choose, args, cell, steps)
}

/// ROW: the numbers of rows. What the call answers over its arguments in a cell, in context.
pub fn fn_row<K: Kinds, B: Reads<L>, L>(
    evaluator: &Evaluator<K, B>,
    alloc: Global,
    args: &Nodes,
    cell: CellReferenceIndex,
    steps: &mut Steps<L>,
) -> Result<CalcResult, Memory>
    ensures { IfOk result (λ made. made ≡ called (setting (K.table evaluator.now.kinds.now) (B.contents evaluator.now.book.now) evaluator.now.limit cell) Row args.now) }
{
    called(evaluator, alloc, Function::Row, args, cell, steps)
}

/// ROWS: how many rows there are. What the call answers over its arguments in a cell, in context.
pub fn fn_rows<K: Kinds, B: Reads<L>, L>(
    evaluator: &Evaluator<K, B>,
    alloc: Global,
    args: &Nodes,
    cell: CellReferenceIndex,
    steps: &mut Steps<L>,
) -> Result<CalcResult, Memory>
    ensures { IfOk result (λ made. made ≡ called (setting (K.table evaluator.now.kinds.now) (B.contents evaluator.now.book.now) evaluator.now.limit cell) Rows args.now) }
{
    called(evaluator, alloc, Function::Rows, args, cell, steps)
}

/// COLUMN: the numbers of columns. What the call answers over its arguments in a cell, in context.
pub fn fn_column<K: Kinds, B: Reads<L>, L>(
    evaluator: &Evaluator<K, B>,
    alloc: Global,
    args: &Nodes,
    cell: CellReferenceIndex,
    steps: &mut Steps<L>,
) -> Result<CalcResult, Memory>
    ensures { IfOk result (λ made. made ≡ called (setting (K.table evaluator.now.kinds.now) (B.contents evaluator.now.book.now) evaluator.now.limit cell) Column args.now) }
{
    called(evaluator, alloc, Function::Column, args, cell, steps)
}

/// COLUMNS: how many columns there are. What the call answers over its arguments in a cell, in context.
pub fn fn_columns<K: Kinds, B: Reads<L>, L>(
    evaluator: &Evaluator<K, B>,
    alloc: Global,
    args: &Nodes,
    cell: CellReferenceIndex,
    steps: &mut Steps<L>,
) -> Result<CalcResult, Memory>
    ensures { IfOk result (λ made. made ≡ called (setting (K.table evaluator.now.kinds.now) (B.contents evaluator.now.book.now) evaluator.now.limit cell) Columns args.now) }
{
    called(evaluator, alloc, Function::Columns, args, cell, steps)
}

/// AREAS: how many areas a reference has. What the call answers over its arguments in a cell, in context.
pub fn fn_areas<K: Kinds, B: Reads<L>, L>(
    evaluator: &Evaluator<K, B>,
    alloc: Global,
    args: &Nodes,
    cell: CellReferenceIndex,
    steps: &mut Steps<L>,
) -> Result<CalcResult, Memory>
    ensures { IfOk result (λ made. made ≡ called (setting (K.table evaluator.now.kinds.now) (B.contents evaluator.now.book.now) evaluator.now.limit cell) Areas args.now) }
{
    called(evaluator, alloc, Function::Areas, args, cell, steps)
}

/// FORMULATEXT: the text of a cell's formula. What the call answers over its arguments in a cell, in context.
pub fn fn_formulatext<K: Kinds, B: Reads<L>, L>(
    evaluator: &Evaluator<K, B>,
    alloc: Global,
    args: &Nodes,
    cell: CellReferenceIndex,
    steps: &mut Steps<L>,
) -> Result<CalcResult, Memory>
    ensures { IfOk result (λ made. made ≡ called (setting (K.table evaluator.now.kinds.now) (B.contents evaluator.now.book.now) evaluator.now.limit cell) Formulatext args.now) }
{
    called(evaluator, alloc, Function::Formulatext, args, cell, steps)
}
