ghost use Rattle.std.specs.Prelude.{◌≡◌, ◌≤◌, IfOk};
ghost use Rattle.tree_core.specs.Formula.{tree_of};
ghost use Rattle.eval_core.specs.Answer.{array_in, context_of, reference_of};
ghost use Rattle.eval_core.specs.Meaning.{mean};
ghost use Rattle.eval_core.specs.Setting.{setting};
ghost use Rattle.operand_core.specs.Side.{side};
ghost use Rattle.value_core.specs.declared.array.ArrayNode.TheVariants.{Empty};

use crate::evaluation::found_of;
use book_core::{Book, Reads};
use call_core::Steps;
use grid_core::CalcResult;
use kind_table::Kinds;
use rectangle_core::{Grid, Value};
use result_core::{array_of, wrong};
use std::alloc::Global;
use tree_core::Node;
use value_core::{ArrayNode, CellReferenceIndex, Memory};

/// What formulas are evaluated by: a table of kinds, a book, and the greatest number of cells of an array that a function
/// makes, at most 16777216.
#[derive(Drop)]
pub struct Evaluator<'a, K: Kinds, B: Book> {
    pub kinds: &'a K,
    pub book: &'a B,
    pub limit: usize,
    pub ghost limited: { limit ≤ 16777216 },
}

impl<'a, K: Kinds, B: Book> Evaluator<'a, K, B> {
    /// What a node of a formula in a cell comes to in context, where a reference stands for the value of its cell.
    pub fn evaluate_node_in_context<L>(
        &self,
        alloc: Global,
        node: &Node,
        cell: CellReferenceIndex,
        steps: &mut Steps<L>,
    ) -> Result<CalcResult, Memory>
    where
        B: Reads<L>,
        ensures { IfOk result (λ made. made ≡ context_of (setting (K.table self.now.kinds.now) (B.contents self.now.book.now) self.now.limit cell) (tree_of node.now)) }
    {
        let found = found_of(self, alloc, node, cell, steps)?;
        let made = found.into_context(alloc, self.book, cell, steps)?;
        Ok(made)
    }

    /// What a node of a formula in a cell comes to with reference, where a reference stands for the range of its one cell, and
    /// an `@` over a range for that of the one cell that it finds.
    pub fn evaluate_node_with_reference<L>(
        &self,
        alloc: Global,
        node: &Node,
        cell: CellReferenceIndex,
        steps: &mut Steps<L>,
    ) -> Result<CalcResult, Memory>
    where
        B: Reads<L>,
        ensures { IfOk result (λ made. made ≡ reference_of (setting (K.table self.now.kinds.now) (B.contents self.now.book.now) self.now.limit cell) (tree_of node.now)) }
    {
        let found = found_of(self, alloc, node, cell, steps)?;
        Ok(found.into_reference())
    }

    /// A node of a formula in a cell as a rectangle: a range is read, one value is one by one, a blank or missing one the
    /// number 0. `Err` is its error.
    pub fn eval_to_array<L>(
        &self,
        alloc: Global,
        node: &Node,
        cell: CellReferenceIndex,
        steps: &mut Steps<L>,
    ) -> Result<Result<Grid, CalcResult>, Memory>
    where
        B: Reads<L>,
        ensures { IfOk result (λ made. made ≡ array_in (setting (K.table self.now.kinds.now) (B.contents self.now.book.now) self.now.limit cell) (tree_of node.now)) }
    {
        let made = self.evaluate_node_in_context(alloc, node, cell, steps)?;
        match array_of(alloc, self.book, made, steps)? {
            Ok(grid) => Ok(Ok(grid)),
            Err(error) => Ok(Err(wrong(cell, error))),
        }
    }

    /// The value of a formula in a cell: a range is read, one value is one by one, a blank or missing one is one blank.
    pub fn formula_value<L>(
        &self,
        alloc: Global,
        node: &Node,
        cell: CellReferenceIndex,
        steps: &mut Steps<L>,
    ) -> Result<Grid, Memory>
    where
        B: Reads<L>,
        ensures { IfOk result (λ grid. grid ≡ mean (setting (K.table self.now.kinds.now) (B.contents self.now.book.now) self.now.limit cell) (tree_of node.now)) }
    {
        let found = found_of(self, alloc, node, cell, steps)?;
        let value = found.into_value(alloc, self.book, cell, steps)?;
        let grid = grid_of_value(alloc, value)?;
        Ok(grid)
    }
}

fn grid_of_value(alloc: Global, value: Value) -> Result<Grid, Memory>
    ensures { IfOk result (λ grid. grid ≡ side Empty value) }
{
    match value {
        Value::One(element) => {
            let grid = Grid::of_one(alloc, element)?;
            Ok(grid)
        }
        Value::Missing => {
            let grid = Grid::of_one(alloc, ArrayNode::Empty)?;
            Ok(grid)
        }
        Value::Grid(grid) => Ok(grid),
    }
}
