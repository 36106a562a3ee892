ghost use Rattle.std.specs.Prelude.{◌*◌, ◌+◌, ◌<◌, ◌≤◌, ◌^◌, length, IfOk};
ghost use Rattle.tree_core.specs.Count.{calls_of, size_of};
ghost use Rattle.tree_core.specs.Formula.{tree_of};
ghost use Rattle.validity_core.specs.Place.{bad_place};
ghost use Rattle.eval_core.specs.Setting.{setting};
ghost use Rattle.answer_core.specs.Answers.{Answers, FitTheirShapes, most_questions};
ghost use Rattle.view_core.specs.Viewed.{Judges};
ghost use Rattle.answer_core.specs.Shown.{shown_by};
ghost use Rattle.answer_core.specs.Parts.{AreFormulas, AreMeant, AreRectangles, AreShapes, AreValues, AreWritten, formula_questions};

use book_core::Reads;
use eval_core::{Fault, valid};
use intersect::{ImportRule, exported, imported};
use kind_table::{Asks, Kinds, StaticResult};
use print_core::Answer;
use rectangle_core::Grid;
use shape_core::run_static_analysis_on_node;
use std::alloc::Global;
use tree_core::{CellReferenceIndex, Memory, Node, Plain, Steps};
use units_core::{Formats, Locale, Units, compute_node_units};
use view_core::ViewEvaluator;

/// The answer to a formula in a cell of a book, by a table of kinds and a rule of import; `limit`, at most 16777216, is
/// the greatest number of cells of an array that a function makes. Its display unit is found by what is known of number formats
/// and by a locale. The formula stays as it is, and has fewer than 2^63 nodes, since import may double them.
///
/// Each of the two values has at most as many rows and columns as its shape says.
///
/// `BadRequest` comes exactly where the formula isn't valid there, with the first bad place, and takes no memory. The table is
/// asked at most `2 * C * ((n + 1) * (n + 1) + 2)` times, with C calls in the formula and n `@`s in its import.
pub fn answer_formula<K: Asks<L>, B: Reads<Plain>, F: Formats, L>(
    alloc: Global,
    kinds: &K,
    book: &B,
    formats: &F,
    locale: &Locale,
    rule: ImportRule,
    limit: usize,
    cell: CellReferenceIndex,
    node: &Node,
    steps: &mut Steps<L>,
) -> Result<Answer, Fault>
    requires countable { 2 * size_of (tree_of node.now) < 2 ^ 64 }
    requires limited { limit ≤ 16777216 }
    ensures answers { IfOk result (Answers rule (setting (K.table kinds.now) (B.contents book.now) limit cell)
        (shown_by (F.first_part formats.now) locale.now) (tree_of node.now)) }
    ensures fits { IfOk result FitTheirShapes }
    ensures judged { Judges result (bad_place (K.table kinds.now) (length (B.contents book.now).sheets) cell (tree_of node.now)) }
    ensures counted { steps.new ≤ steps.old + most_questions rule (K.table kinds.now) (tree_of node.now) }
{
    match valid(kinds, book, cell, node) {
        Some(place) => Err(Fault::BadRequest(place)),
        None => {
            let answer = answer_of(
                alloc, kinds, book, formats, locale, rule, limit, cell, node, steps,
            )?;
            Ok(answer)
        }
    }
}

/// The same of any formula, valid or not.
fn answer_of<K: Asks<L>, B: Reads<Plain>, F: Formats, L>(
    alloc: Global,
    kinds: &K,
    book: &B,
    formats: &F,
    locale: &Locale,
    rule: ImportRule,
    limit: usize,
    cell: CellReferenceIndex,
    node: &Node,
    steps: &mut Steps<L>,
) -> Result<Answer, Memory>
    requires countable { 2 * size_of (tree_of node.now) < 2 ^ 64 }
    requires limited { limit ≤ 16777216 }
    ensures answers { IfOk result (Answers rule (setting (K.table kinds.now) (B.contents book.now) limit cell)
        (shown_by (F.first_part formats.now) locale.now) (tree_of node.now)) }
    ensures fits { IfOk result FitTheirShapes }
    ensures counted { steps.new ≤ steps.old + most_questions rule (K.table kinds.now) (tree_of node.now) }
{
    let written = written_of(alloc, kinds, rule, node, steps)?;
    let imported = &written.imported;
    let meant = meant_of(
        alloc, kinds, book, formats, locale, limit, cell, node, imported,
    )?;
    Ok(Answer {
        exported: written.exported,
        given_shape: written.given_shape,
        imported: written.imported,
        imported_shape: written.imported_shape,
        legacy: meant.legacy,
        spilled: meant.spilled,
        unit: meant.unit,
    })
}

/// What an answer says of a formula by the table of kinds alone.
#[derive(Drop)]
pub(crate) struct Written {
    imported: Node,
    exported: Node,
    given_shape: StaticResult,
    imported_shape: StaticResult,
}

/// What it says of its meaning.
#[derive(Drop)]
pub(crate) struct Meant {
    spilled: Grid,
    legacy: Grid,
    unit: Option<Units>,
}

/// The formulas of an answer.
#[derive(Drop)]
pub(crate) struct Formulas {
    pub(crate) imported: Node,
    pub(crate) exported: Node,
}

/// The shapes of an answer.
#[derive(Clone, Copy, Drop)]
pub(crate) struct Shapes {
    given: StaticResult,
    imported: StaticResult,
}

/// The values of an answer.
#[derive(Drop)]
pub(crate) struct Values {
    spilled: Grid,
    legacy: Grid,
}

fn written_of<K: Asks<L>, L>(
    alloc: Global,
    kinds: &K,
    rule: ImportRule,
    node: &Node,
    steps: &mut Steps<L>,
) -> Result<Written, Memory>
    requires countable { 2 * size_of (tree_of node.now) < 2 ^ 64 }
    ensures made { IfOk result (AreWritten rule (K.table kinds.now) (tree_of node.now)) }
    ensures counted { steps.new ≤ steps.old + most_questions rule (K.table kinds.now) (tree_of node.now) }
{
    let formulas = formulas_of(alloc, kinds, rule, node, steps)?;
    let shapes = shapes_of(alloc, kinds, node, &formulas.imported, steps)?;
    Ok(Written {
        imported: formulas.imported,
        exported: formulas.exported,
        given_shape: shapes.given,
        imported_shape: shapes.imported,
    })
}

fn meant_of<K: Kinds, B: Reads<Plain>, F: Formats>(
    alloc: Global,
    kinds: &K,
    book: &B,
    formats: &F,
    locale: &Locale,
    limit: usize,
    cell: CellReferenceIndex,
    given: &Node,
    imported: &Node,
) -> Result<Meant, Memory>
    requires limited { limit ≤ 16777216 }
    ensures made { IfOk result (AreMeant (setting (K.table kinds.now) (B.contents book.now) limit cell)
        (shown_by (F.first_part formats.now) locale.now) (tree_of given.now) (tree_of imported.now)) }
{
    let values = values_of(alloc, kinds, book, limit, cell, given, imported)?;
    let unit = compute_node_units(alloc, given, cell, kinds, book, formats, locale)?;
    Ok(Meant {
        spilled: values.spilled,
        legacy: values.legacy,
        unit,
    })
}

pub(crate) fn formulas_of<K: Asks<L>, L>(
    alloc: Global,
    kinds: &K,
    rule: ImportRule,
    node: &Node,
    steps: &mut Steps<L>,
) -> Result<Formulas, Memory>
    requires countable { 2 * size_of (tree_of node.now) < 2 ^ 64 }
    ensures made { IfOk result (AreFormulas rule (K.table kinds.now) (tree_of node.now)) }
    ensures counted { steps.new ≤ steps.old + formula_questions rule (K.table kinds.now) (tree_of node.now) }
{
    let imported = imported(alloc, node, true, kinds, rule, steps)?;
    let exported = exported(alloc, &imported, true, kinds, rule, steps)?;
    Ok(Formulas { imported, exported })
}

fn shapes_of<K: Asks<L>, L>(
    alloc: Global,
    kinds: &K,
    given: &Node,
    imported: &Node,
    steps: &mut Steps<L>,
) -> Result<Shapes, Memory>
    ensures made { IfOk result (AreShapes (K.table kinds.now) (tree_of given.now) (tree_of imported.now)) }
    ensures counted { steps.new ≤ steps.old + (calls_of (tree_of given.now) + calls_of (tree_of imported.now)) }
{
    let given = run_static_analysis_on_node(alloc, given, kinds, steps)?;
    let imported = run_static_analysis_on_node(alloc, imported, kinds, steps)?;
    Ok(Shapes { given, imported })
}

fn values_of<K: Kinds, B: Reads<Plain>>(
    alloc: Global,
    kinds: &K,
    book: &B,
    limit: usize,
    cell: CellReferenceIndex,
    given: &Node,
    imported: &Node,
) -> Result<Values, Memory>
    requires limited { limit ≤ 16777216 }
    ensures made { IfOk result (AreValues (setting (K.table kinds.now) (B.contents book.now) limit cell) (tree_of given.now) (tree_of imported.now)) }
    ensures rectangles { IfOk result AreRectangles }
{
    let evaluator = ViewEvaluator { kinds, book, limit };
    let mut reads = Steps::new(Plain);
    let spilled = evaluator.formula_value(alloc, given, cell, &mut reads)?;
    let legacy = evaluator.formula_value(alloc, imported, cell, &mut reads)?;
    // A grid tells of itself that it is a rectangle.
    let _rows = (spilled.rows(), legacy.rows());
    Ok(Values { spilled, legacy })
}
