ghost use Rattle.std.specs.Prelude.{◌≡◌, ◌∷◌, IfOk};
ghost use Rattle.json.specs.Token.{key};
ghost use Rattle.value_json.specs.Piece.{Writes, data_tokens};
ghost use Rattle.value_json.specs.Values.{rows_data};
ghost use Rattle.formula_json.specs.Formula.{node_data};
ghost use Rattle.unit_json.specs.Unit.{unit_or_null};
ghost use Rattle.print_core.specs.Answer.{answer_data, answer_line, formulas_data, formulas_line, shape_data};

use crate::shape::shape_text;
use formula_json::write_node;
use json::Writer;
use kind_table::StaticResult;
use rectangle_core::Grid;
use std::alloc::Global;
use tree_core::{Memory, Node};
use unit_json::write_unit;
use units_core::Units;
use value_json::write_grid;

/// The answer to a formula. Its parts stand in the order in which they are written.
#[derive(Debug, Drop)]
pub struct Answer {
    /// The imported formula with each `@` dropped that can go, so that its import is the imported formula again.
    pub exported: Node,
    /// The static shape of the formula as it is given.
    pub given_shape: StaticResult,
    /// The formula as import makes it, where one value is wanted of the whole.
    pub imported: Node,
    /// The static shape of the imported formula.
    pub imported_shape: StaticResult,
    /// The value of the imported formula: what the formula means in a sheet of single values.
    pub legacy: Grid,
    /// The value of the formula as it is given: what it means where many values may spill.
    pub spilled: Grid,
    /// The display unit of the formula as it is given; `None` where it has none.
    pub unit: Option<Units>,
}

/// The line of an answer: an object with a key for each part, in their order, as compact JSON in UTF-8, and a newline. The
/// error means want of memory.
pub fn answer_line(alloc: Global, answer: &Answer) -> Result<Vec<u8>, Memory>
    ensures { IfOk result (λ line. line.items ≡ answer_line answer.now) }
{
    let mut writer = Writer::new(Vec::new(alloc));
    write_answer(alloc, &mut writer, answer)?;
    let mut line = writer.into_inner();
    line.push(b'\n')?;
    Ok(line)
}

fn write_answer(alloc: Global, writer: &mut Writer, answer: &Answer) -> Result<(), Memory>
    ensures { Writes result writer.old writer.new (data_tokens (answer_data answer.now)) }
{
    writer.begin_object()?;
    write_formula(writer, "exported", &answer.exported)?;
    write_shape(alloc, writer, "given_shape", answer.given_shape)?;
    write_formula(writer, "imported", &answer.imported)?;
    write_shape(alloc, writer, "imported_shape", answer.imported_shape)?;
    write_value(writer, "legacy", &answer.legacy)?;
    write_value(writer, "spilled", &answer.spilled)?;
    write_display_unit(writer, "unit", &answer.unit)?;
    writer.end_object()?;
    Ok(())
}

/// The line of an imported formula and its export alone: an object with a key for each, as an answer has them, and a newline. The
/// error means want of memory.
pub fn formulas_line(alloc: Global, exported: &Node, imported: &Node) -> Result<Vec<u8>, Memory>
    ensures { IfOk result (λ line. line.items ≡ formulas_line exported.now imported.now) }
{
    let mut writer = Writer::new(Vec::new(alloc));
    write_formulas(&mut writer, exported, imported)?;
    let mut formulas = writer.into_inner();
    formulas.push(b'\n')?;
    Ok(formulas)
}

fn write_formulas(writer: &mut Writer, exported: &Node, imported: &Node) -> Result<(), Memory>
    ensures { Writes result writer.old writer.new (data_tokens (formulas_data exported.now imported.now)) }
{
    writer.begin_object()?;
    write_formula(writer, "exported", exported)?;
    write_formula(writer, "imported", imported)?;
    writer.end_object()?;
    Ok(())
}

fn write_formula(writer: &mut Writer, name: &str, node: &Node) -> Result<(), Memory>
    ensures { Writes result writer.old writer.new (key name.now ∷ data_tokens (node_data node.now)) }
{
    writer.key(name)?;
    write_node(writer, node)?;
    Ok(())
}

fn write_shape(
    alloc: Global,
    writer: &mut Writer,
    name: &str,
    shape: StaticResult,
) -> Result<(), Memory>
    ensures { Writes result writer.old writer.new (key name.now ∷ data_tokens (shape_data shape)) }
{
    writer.key(name)?;
    let text = shape_text(alloc, shape)?;
    writer.string(text.as_str())?;
    Ok(())
}

fn write_display_unit(writer: &mut Writer, name: &str, unit: &Option<Units>) -> Result<(), Memory>
    ensures { Writes result writer.old writer.new (key name.now ∷ data_tokens (unit_or_null unit.now)) }
{
    writer.key(name)?;
    write_unit(writer, unit)?;
    Ok(())
}

fn write_value(writer: &mut Writer, name: &str, value: &Grid) -> Result<(), Memory>
    ensures { Writes result writer.old writer.new (key name.now ∷ data_tokens (rows_data value.now)) }
{
    writer.key(name)?;
    write_grid(writer, value)?;
    Ok(())
}
