ghost use Rattle.std.specs.Prelude.{◌≡◌, ◌<◌, ◌==◌, ◌++◌, [], if◌then◌else◌, codes, map, IfOk, OnOk, slice_index_or, string_bytes};
ghost use Rattle.array_texts.specs.ArrayText.{array_text, element_text, joined, loose_text, row_text, strict_text};
ghost use Rattle.rectangle_core.specs.Rectangle.{height};
ghost use Rattle.quote_core.specs.Quoted.{quoted};
ghost use Rattle.operand_core.specs.Cast.{truth_text};

use number_core::number_text;
use quote_core::quoted;
use rectangle_core::Grid;
use std::alloc::Global;
use value_core::{ArrayNode, Memory, Text};

/// The text of an array: its elements one row after another, with `, ` between them; or in the strict form an array literal in
/// braces, with `,` between the elements of a row and `;` between rows, and texts in quotes.
pub fn array_text(alloc: Global, grid: &Grid, strict: bool) -> Result<Text, Memory>
    ensures { IfOk result (λ text. text ≡ array_text strict grid.now) }
{
    let made = if strict {
        strict_text(alloc, grid)?
    } else {
        loose_text(alloc, grid)?
    };
    Text::from_text(alloc, made.as_str())
}

fn loose_text(alloc: Global, grid: &Grid) -> Result<String, Memory>
    ensures { IfOk result (λ made. string_bytes made ≡ loose_text grid.now) }
{
    let mut made = String::new(alloc);
    push_elements(&mut made, alloc, grid.elements(), ", ", false)?;
    Ok(made)
}

fn strict_text(alloc: Global, grid: &Grid) -> Result<String, Memory>
    ensures { IfOk result (λ made. string_bytes made ≡ strict_text grid.now) }
{
    let mut made = String::from_str(alloc, "{")?;
    push_rows(&mut made, alloc, grid)?;
    made.push_str("}")?;
    Ok(made)
}

/// Puts the texts of the rows behind the others, a `;` between each two.
fn push_rows(made: &mut String, alloc: Global, grid: &Grid) -> Result<(), Memory>
    ensures { OnOk result (string_bytes made.new ≡ string_bytes made.old ++ joined (codes ";") (map row_text grid.now)) }
{
    for row in 0..grid.rows() {
        push_between(made, row, ";")?;
        push_row(made, alloc, grid, row)?;
    }
    Ok(())
}

/// Puts the text of a row behind the others.
fn push_row(made: &mut String, alloc: Global, grid: &Grid, row: usize) -> Result<(), Memory>
    requires { row < height grid.now }
    ensures { OnOk result (string_bytes made.new ≡ string_bytes made.old ++ row_text (slice_index_or grid.now row [])) }
{
    match grid.row(row) {
        Some(elements) => push_elements(made, alloc, elements, ",", true),
        None => Ok(()),
    }
}

/// Puts the texts of some elements behind the others, with one between each two.
fn push_elements(
    made: &mut String,
    alloc: Global,
    elements: &[ArrayNode],
    between: &str,
    strict: bool,
) -> Result<(), Memory>
    ensures { OnOk result (string_bytes made.new ≡ string_bytes made.old ++ joined between.now (map (element_text strict) elements.now)) }
{
    for (index, element) in elements.iter().enumerate() {
        push_between(made, index, between)?;
        push_element(made, alloc, element, strict)?;
    }
    Ok(())
}

/// Puts a text behind the others, unless it would come before the first one.
fn push_between(made: &mut String, index: usize, between: &str) -> Result<(), Memory>
    ensures { OnOk result (string_bytes made.new ≡ string_bytes made.old ++ (if index == 0 then [] else between.now)) }
{
    if index > 0 {
        made.push_str(between)?;
    }
    Ok(())
}

fn push_element(
    made: &mut String,
    alloc: Global,
    element: &ArrayNode,
    strict: bool,
) -> Result<(), Memory>
    ensures { OnOk result (string_bytes made.new ≡ string_bytes made.old ++ element_text strict element.now) }
{
    let text = element_text(alloc, element, strict)?;
    made.push_str(text.as_str())?;
    Ok(())
}

/// The text of an element: a number as it is written, `TRUE` or `FALSE`, an error's name, nothing for a blank; a text as it is
/// or, in the strict form, in double quotes with each quote in it doubled.
pub fn element_text(alloc: Global, element: &ArrayNode, strict: bool) -> Result<Text, Memory>
    ensures { IfOk result (λ text. text ≡ element_text strict element.now) }
{
    match element {
        ArrayNode::Number(number) => number_text(alloc, *number),
        ArrayNode::Boolean(value) => Text::from_text(alloc, truth_text(*value)),
        ArrayNode::String(text) => text_in(alloc, text.as_str(), strict),
        ArrayNode::Error(error) => Text::from_text(alloc, error.name()),
        ArrayNode::Empty => Text::from_text(alloc, ""),
    }
}

fn truth_text(value: bool) -> &'static str
    ensures { result.now ≡ truth_text value }
{
    if value { "TRUE" } else { "FALSE" }
}

fn text_in(alloc: Global, text: &str, strict: bool) -> Result<Text, Memory>
    ensures { IfOk result (λ made. made ≡ (if strict then quoted 34 text.now else text.now)) }
{
    if strict {
        let quoted = quoted(alloc, '"', text)?;
        return Text::from_text(alloc, quoted.as_str());
    }
    Text::from_text(alloc, text)
}
