ghost use Rattle.std.specs.Prelude.{◌≡◌, ◌+◌, ◌≤◌, IfOk, IsTrue};
ghost use Rattle.tree_core.specs.Formula.{tree_of};
ghost use Rattle.result_core.specs.declared.found.Found.TheVariants.{Same};
ghost use Rattle.eval_core.specs.Answer.{array_in, context_of, reference_of};
ghost use Rattle.eval_core.specs.Meaning.{found_of, mean};
ghost use Rattle.eval_core.specs.Setting.{setting};
ghost use Rattle.nest_core.specs.Plain.{is_plain_nest};
ghost use Rattle.view_core.specs.Compiled.{Comes};
ghost use Rattle.view_core.specs.Viewed.{element_count};

use crate::compiling::compile;
use crate::constant::without_cells;
use argument_core::Stop;
use book_core::{Book, Reads};
use call_core::Steps;
use eval_core::Evaluator;
use grid_core::CalcResult;
use kind_table::Kinds;
use nest_core::is_plain_nest;
use rectangle_core::Grid;
use result_core::wrong;
use std::alloc::Global;
use tree_core::{Node, View};
use value_core::{ArrayNode, CellReferenceIndex, Error, Memory};

/// What formulas are evaluated by: a table of kinds, a book, and the greatest number of cells of an array that a function
/// makes, at most 16777216. It answers as `eval_core::Evaluator` does. Of a plain nest (see `nest_core::is_plain_nest`) the whole
/// is filled at once: no array that is only moved is made on the way, and at most as many cells are read as its value has
/// elements.
#[derive(Drop)]
pub struct ViewEvaluator<'a, K: Kinds, B: Book> {
    pub kinds: &'a K,
    pub book: &'a B,
    pub limit: usize,
    pub ghost limited: { limit ≤ 16777216 },
}

impl<'a, K: Kinds, B: Book> ViewEvaluator<'a, K, B> {
    /// What a node of a formula in a cell comes to in context, where a reference stands for the value of its cell.
    pub fn evaluate_node_in_context<L>(
        &self,
        alloc: Global,
        node: &Node,
        cell: CellReferenceIndex,
        steps: &mut Steps<L>,
    ) -> Result<CalcResult, Memory>
    where
        B: Reads<L>,
        ensures value { IfOk result (λ made. made ≡ context_of (setting (K.table self.now.kinds.now) (B.contents self.now.book.now) self.now.limit cell) (tree_of node.now)) }
        ensures counted { IsTrue (is_plain_nest (tree_of node.now)) → steps.new ≤ steps.old + element_count (mean (setting (K.table self.now.kinds.now) (B.contents self.now.book.now) self.now.limit cell) (tree_of node.now)) }
    {
        if is_plain_nest(node) {
            self.nest_result(alloc, node, cell, steps)
        } else {
            self.evaluator()
                .evaluate_node_in_context(alloc, node, cell, steps)
        }
    }

    /// What a node of a formula in a cell comes to with reference, where a reference stands for the range of its one cell, and
    /// an `@` over a range for that of the one cell that it finds.
    pub fn evaluate_node_with_reference<L>(
        &self,
        alloc: Global,
        node: &Node,
        cell: CellReferenceIndex,
        steps: &mut Steps<L>,
    ) -> Result<CalcResult, Memory>
    where
        B: Reads<L>,
        ensures value { IfOk result (λ made. made ≡ reference_of (setting (K.table self.now.kinds.now) (B.contents self.now.book.now) self.now.limit cell) (tree_of node.now)) }
        ensures counted { IsTrue (is_plain_nest (tree_of node.now)) → steps.new ≤ steps.old + element_count (mean (setting (K.table self.now.kinds.now) (B.contents self.now.book.now) self.now.limit cell) (tree_of node.now)) }
    {
        if is_plain_nest(node) {
            self.nest_result(alloc, node, cell, steps)
        } else {
            self.evaluator()
                .evaluate_node_with_reference(alloc, node, cell, steps)
        }
    }

    /// A node of a formula in a cell as a rectangle: a range is read, one value is one by one, a blank or missing one the
    /// number 0. `Err` is its error.
    pub fn eval_to_array<L>(
        &self,
        alloc: Global,
        node: &Node,
        cell: CellReferenceIndex,
        steps: &mut Steps<L>,
    ) -> Result<Result<Grid, CalcResult>, Memory>
    where
        B: Reads<L>,
        ensures value { IfOk result (λ made. made ≡ array_in (setting (K.table self.now.kinds.now) (B.contents self.now.book.now) self.now.limit cell) (tree_of node.now)) }
        ensures counted { IsTrue (is_plain_nest (tree_of node.now)) → steps.new ≤ steps.old + element_count (mean (setting (K.table self.now.kinds.now) (B.contents self.now.book.now) self.now.limit cell) (tree_of node.now)) }
    {
        if is_plain_nest(node) {
            match self.nest_grid(alloc, node, cell, steps)? {
                Ok(grid) => Ok(Ok(grid)),
                Err(error) => Ok(Err(wrong(cell, error))),
            }
        } else {
            self.evaluator().eval_to_array(alloc, node, cell, steps)
        }
    }

    /// The value of a formula in a cell: a range is read, one value is one by one, a blank or missing one is one blank.
    pub fn formula_value<L>(
        &self,
        alloc: Global,
        node: &Node,
        cell: CellReferenceIndex,
        steps: &mut Steps<L>,
    ) -> Result<Grid, Memory>
    where
        B: Reads<L>,
        ensures value { IfOk result (λ grid. grid ≡ mean (setting (K.table self.now.kinds.now) (B.contents self.now.book.now) self.now.limit cell) (tree_of node.now)) }
        ensures counted { IsTrue (is_plain_nest (tree_of node.now)) → steps.new ≤ steps.old + element_count (mean (setting (K.table self.now.kinds.now) (B.contents self.now.book.now) self.now.limit cell) (tree_of node.now)) }
    {
        if is_plain_nest(node) {
            match self.nest_grid(alloc, node, cell, steps)? {
                Ok(grid) => Ok(grid),
                Err(error) => Grid::of_one(alloc, ArrayNode::Error(error)),
            }
        } else {
            self.evaluator().formula_value(alloc, node, cell, steps)
        }
    }

    /// What evaluates formulas that are no plain nests.
    fn evaluator(&self) -> Evaluator<'a, K, B>
        ensures kinds { result.kinds ≡ self.now.kinds }
        ensures book { result.book ≡ self.now.book }
        ensures limit { result.limit ≡ self.now.limit }
    {
        Evaluator {
            kinds: self.kinds,
            book: self.book,
            limit: self.limit,
        }
    }

    /// What a plain nest comes to, in context and with reference alike: a range or an array literal without a read.
    #[tactic(auto, using(crate::proofs::Filled::filled))]
    fn nest_result<L>(
        &self,
        alloc: Global,
        node: &Node,
        cell: CellReferenceIndex,
        steps: &mut Steps<L>,
    ) -> Result<CalcResult, Memory>
    where
        B: Reads<L>,
        requires { IsTrue (is_plain_nest (tree_of node.now)) }
        ensures found { IfOk result (λ made. found_of (setting (K.table self.now.kinds.now) (B.contents self.now.book.now) self.now.limit cell) (tree_of node.now) ≡ Same made) }
        ensures counted { steps.new ≤ steps.old + element_count (mean (setting (K.table self.now.kinds.now) (B.contents self.now.book.now) self.now.limit cell) (tree_of node.now)) }
    {
        match node.view() {
            View::Leaf(_) => without_cells(alloc, cell, node),
            View::Call { .. } => match self.nest_grid(alloc, node, cell, steps)? {
                Ok(grid) => Ok(CalcResult::Array(grid)),
                Err(error) => Ok(wrong(cell, error)),
            },
            View::Closed(_)
            | View::Unary { .. }
            | View::Binary { .. }
            | View::Spill { .. }
            | View::Intersection { .. } => unreachable!(),
        }
    }

    /// The elements of a plain nest, or its error.
    fn nest_grid<L>(
        &self,
        alloc: Global,
        node: &Node,
        cell: CellReferenceIndex,
        steps: &mut Steps<L>,
    ) -> Result<Result<Grid, Error>, Memory>
    where
        B: Reads<L>,
        requires { IsTrue (is_plain_nest (tree_of node.now)) }
        ensures comes { IfOk result (λ made. Comes (setting (K.table self.now.kinds.now) (B.contents self.now.book.now) self.now.limit cell) made (found_of (setting (K.table self.now.kinds.now) (B.contents self.now.book.now) self.now.limit cell) (tree_of node.now))) }
        ensures counted { steps.new ≤ steps.old + element_count (mean (setting (K.table self.now.kinds.now) (B.contents self.now.book.now) self.now.limit cell) (tree_of node.now)) }
    {
        match compile(alloc, self.limit, cell, node) {
            Ok(nest) => {
                let grid = nest.grid(alloc, self.book, steps)?;
                Ok(Ok(grid))
            }
            Err(Stop::Wrong(error)) => Ok(Err(error)),
            Err(Stop::Memory) => Err(Memory),
        }
    }
}
