ghost use Rattle.std.specs.Prelude.{ℕ, ◌≡◌, ◌≤◌, All, IfOk, IsTrue, length, map};
ghost use Rattle.book_core.specs.Contents.{Contents};
ghost use Rattle.kind_table.specs.Table.{Table};
ghost use Rattle.tree_core.specs.Formula.{tree_of};
ghost use Rattle.tree_core.specs.Tree.{forest};
ghost use Rattle.argument_core.specs.Argument.{array_in};
ghost use Rattle.argument_core.specs.Check.{GivesAs, each};
ghost use Rattle.nest_core.specs.Built.{Shows};
ghost use Rattle.nest_core.specs.Plain.{are_arguments, arrays_of, is_nest_kind, is_plain_nest};
ghost use Rattle.nest_core.specs.Rows.{rows_in};
ghost use Rattle.eval_core.specs.Answer.{called};
ghost use Rattle.eval_core.specs.Meaning.{found_of};
ghost use Rattle.eval_core.specs.Setting.{setting};
ghost use Rattle.view_core.specs.Compiled.{Compiles, is_source};

use crate::constant::{all_without_cells, without_cells};
use argument_core::Stop;
use call_core::Function;
use grid_core::CalcResult;
use nest_core::{PlainNest, arguments_refused, arrays_of};
use std::alloc::Global;
use tree_core::{Node, View};
use value_core::{CellReferenceIndex, Range};

/// The nest that a plain nest is, or its error: the first in the order in which evaluation meets them. No cell is read.
#[cycle(compiling)]
#[tactic(auto, using(crate::proofs::Compilings::compilings))]
pub(crate) fn compile(
    alloc: Global,
    limit: usize,
    cell: CellReferenceIndex,
    node: &Node,
) -> Result<PlainNest, Stop>
    requires limited { limit ≤ 16777216 }
    requires plain { IsTrue (is_plain_nest (tree_of node.now)) }
    ensures { Compiles limit cell (tree_of node.now) result }
{
    match node.view() {
        View::Leaf(_) => compiled_source(alloc, cell, node),
        View::Call { kind, args } => compiled_call(alloc, limit, cell, kind, args.as_slice()),
        View::Closed(_)
        | View::Unary { .. }
        | View::Binary { .. }
        | View::Spill { .. }
        | View::Intersection { .. } => unreachable!(),
    }
}

/// A range or an array literal.
fn compiled_source(alloc: Global, cell: CellReferenceIndex, node: &Node) -> Result<PlainNest, Stop>
    requires { IsTrue (is_source (tree_of node.now)) }
    ensures { (limit : ℕ) → Compiles limit cell (tree_of node.now) result }
{
    match without_cells(alloc, cell, node)? {
        CalcResult::Range { left, right } => Ok(PlainNest::of_range(Range { left, right })),
        CalcResult::Array(grid) => Ok(PlainNest::of_array(grid)),
        CalcResult::Error { error, .. } => Err(Stop::Wrong(error)),
        CalcResult::Number(_)
        | CalcResult::Boolean(_)
        | CalcResult::String(_)
        | CalcResult::EmptyCell
        | CalcResult::EmptyArg => unreachable!(),
    }
}

/// A call of a nest's kinds: the count of its arguments is looked at first, then its arrays from left to right, then the rest.
#[cycle(compiling)]
pub(crate) fn compiled_call(
    alloc: Global,
    limit: usize,
    cell: CellReferenceIndex,
    kind: Function,
    args: &[Node],
) -> Result<PlainNest, Stop>
    requires limited { limit ≤ 16777216 }
    requires kind { IsTrue (is_nest_kind kind) }
    requires arguments { IsTrue (are_arguments (forest (map tree_of args.now)) (arrays_of kind (length args.now))) }
    ensures { (table : Table) (book : Contents) → Shows book cell result (called (setting table book limit cell) kind args.now) }
{
    if let Some(error) = arguments_refused(kind, args.len()) {
        return Err(Stop::Wrong(error));
    }
    let (arrays, others) = args.split_at(arrays_of(kind, args.len()));
    let parts = compile_all(alloc, limit, cell, arrays)?;
    let others = all_without_cells(alloc, cell, others)?;
    PlainNest::of_call(alloc, limit, cell, kind, parts, others)
}

/// Some plain nests, from left to right.
#[cycle(compiling)]
fn compile_all(
    alloc: Global,
    limit: usize,
    cell: CellReferenceIndex,
    nodes: &[Node],
) -> Result<Vec<PlainNest>, Stop>
    requires limited { limit ≤ 16777216 }
    requires plain { All (λ node. IsTrue (is_plain_nest (tree_of node))) nodes.now }
    ensures count { IfOk result (λ parts. length parts.items ≡ length nodes.now) }
    ensures arrays { (table : Table) (book : Contents) → GivesAs (λ parts. map (rows_in book) parts.items) result
        (each (array_in book cell) (map (λ node. found_of (setting table book limit cell) (tree_of node)) nodes.now)) }
{
    let mut parts = Vec::new(alloc);
    for node in nodes {
        let part = compile(alloc, limit, cell, node)?;
        parts.push(part)?;
    }
    Ok(parts)
}
