ghost use Rattle.std.specs.Prelude.{◌≡◌, IfOk, map};
ghost use Rattle.result_core.specs.declared.found.Found.TheVariants.{Same};
ghost use Rattle.tree_core.specs.Formula.{tree_of};
ghost use Rattle.view_core.specs.Compiled.{without_cells};

use book_core::MemoryBook;
use call_core::{Plain, Steps};
use eval_core::Evaluator;
use grid_core::CalcResult;
use kind_table::CrateKinds;
use result_core::Found;
use std::alloc::Global;
use tree_core::Node;
use value_core::{CellReferenceIndex, Memory};

/// What a formula in a cell comes to with reference over a book without cells, with a counter of its own: what it comes to over
/// every book, where it reads no cell and calls no function.
pub(crate) fn without_cells(
    alloc: Global,
    cell: CellReferenceIndex,
    node: &Node,
) -> Result<CalcResult, Memory>
    ensures { IfOk result (λ made. made ≡ without_cells cell (tree_of node.now)) }
{
    let book = MemoryBook::new(alloc);
    let evaluator = Evaluator {
        kinds: &CrateKinds,
        book: &book,
        limit: 0,
    };
    let mut steps = Steps::new(Plain);
    let made = evaluator.evaluate_node_with_reference(alloc, node, cell, &mut steps)?;
    Ok(made)
}

/// The same of each of some formulas.
pub(crate) fn all_without_cells(
    alloc: Global,
    cell: CellReferenceIndex,
    nodes: &[Node],
) -> Result<Vec<Found>, Memory>
    ensures { IfOk result (λ all. all.items ≡ map (λ node. Same (without_cells cell (tree_of node))) nodes.now) }
{
    let mut all = Vec::new(alloc);
    for node in nodes {
        let made = without_cells(alloc, cell, node)?;
        all.push(Found::Same(made))?;
    }
    Ok(all)
}
