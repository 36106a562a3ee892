ghost use Rattle.std.specs.Prelude.{◌≡◌, ◌<◌, ◌^◌, ◌++◌, IfOk, codes, decimal, string_bytes};
ghost use Rattle.rectangle_core.specs.Rectangle.{height, width};
ghost use Rattle.tree_core.specs.Count.{ats_of, size_of};
ghost use Rattle.tree_core.specs.Formula.{tree_of};
ghost use Rattle.generator_core.specs.Line.{summary_line};

use array_texts::array_text;
use print_core::Answer;
use rectangle_core::Grid;
use std::alloc::Global;
use tree_core::{Memory, Node};

/// A line, with its newline, on a formula and the answer to it: how many nodes the formula has, how many `@`s the imported one has
/// and how many of them are kept in the exported one, the rows and columns of the spilled value, and the elements of the one-cell
/// value. Each of the three formulas has fewer than 2^64 nodes.
pub fn summary_line(alloc: Global, given: &Node, answer: &Answer) -> Result<Vec<u8>, Memory>
    requires given { size_of (tree_of given.now) < 2 ^ 64 }
    requires imported { size_of (tree_of answer.now.imported) < 2 ^ 64 }
    requires exported { size_of (tree_of answer.now.exported) < 2 ^ 64 }
    ensures { IfOk result (λ line. line.items ≡ summary_line (tree_of given.now) answer.now) }
{
    let counts = counts_text(alloc, given, &answer.imported, &answer.exported)?;
    let size = size_text(alloc, &answer.spilled)?;
    let legacy = array_text(alloc, &answer.legacy, false)?;
    let mut line = counts;
    line.push_str(size.as_str())?;
    line.push_str(" legacy ")?;
    line.push_str(legacy.as_str())?;
    line.push_str("\n")?;
    Ok(line.into_bytes())
}

fn counts_text(
    alloc: Global,
    given: &Node,
    imported: &Node,
    exported: &Node,
) -> Result<String, Memory>
    requires given { size_of (tree_of given.now) < 2 ^ 64 }
    requires imported { size_of (tree_of imported.now) < 2 ^ 64 }
    requires exported { size_of (tree_of exported.now) < 2 ^ 64 }
    ensures { IfOk result (λ text. string_bytes text ≡ codes "nodes " ++ decimal (size_of (tree_of given.now))
        ++ codes " added " ++ decimal (ats_of (tree_of imported.now)) ++ codes " kept " ++ decimal (ats_of (tree_of exported.now))) }
{
    let nodes = given.node_count();
    let added = imported.at_count();
    let kept = exported.at_count();
    Ok(format!(in alloc; "nodes {nodes} added {added} kept {kept}")?)
}

fn size_text(alloc: Global, value: &Grid) -> Result<String, Memory>
    ensures { IfOk result (λ text. string_bytes text ≡ codes " rows " ++ decimal (height value.now)
        ++ codes " columns " ++ decimal (width value.now)) }
{
    let rows = value.rows();
    let columns = value.columns();
    Ok(format!(in alloc; " rows {rows} columns {columns}")?)
}
