ghost use Rattle.std.specs.Prelude.{◌≤◌, IfOk};
ghost use Rattle.serde_json.specs.View.{view};
ghost use Rattle.tree_core.specs.Count.{size_of};
ghost use Rattle.tree_core.specs.Formula.{tree_of};
ghost use Rattle.value_json.specs.Reading.{GivesBy};
ghost use Rattle.request_core.specs.Request.{asked_in, asked_of, formula_of, request_of};

use crate::question::{read_formula, read_question};
use crate::showing::read_showing;
use crate::text::parse;
use book_core::MemoryBook;
use option_json::{Options, read_options};
use serde_json::Value;
use std::alloc::Global;
use tree_core::Node;
use units_core::{Locale, MapFormats};
use value_core::CellReferenceIndex;
use value_json::{FormError, check_keys};

/// The keys of a request: four that it must have, two that say how values are shown, and three that say how it is answered.
pub static KEYS: [&str; 9] = [
    "sheets", "cells", "cell", "formula", "formats", "locale", "version", "rule", "limit",
];

/// What is asked for.
#[derive(Debug, Drop)]
pub struct Request {
    /// The book that the formula stands in.
    pub book: MemoryBook,
    /// The cell that it stands in.
    pub cell: CellReferenceIndex,
    /// The formula to answer.
    pub formula: Node,
    /// What is known of number formats.
    pub formats: MapFormats,
    /// How the country writes amounts of money, dates and times.
    pub locale: Locale,
    /// The rule of import, and the limit of cells.
    pub options: Options,
}

/// The request that the bytes of a JSON text are.
#[tactic(auto, unfolding(crate::specs::Request::request_of))]
pub fn read_request(alloc: Global, bytes: &[u8]) -> Result<Request, FormError>
    ensures found { GivesBy asked_of result (request_of bytes.now) }
    ensures most { IfOk result (λ request. size_of (tree_of request.formula) ≤ 16777216) }
    ensures limited { IfOk result (λ request. request.options.limit ≤ 16777216) }
{
    let value = parse(alloc, bytes)?;
    let request = read_value(alloc, &value)?;
    Ok(request)
}

/// The formula alone that the bytes of a JSON text are: a node, of at most 16777216 nodes in all.
#[tactic(auto, unfolding(crate::specs::Request::formula_of))]
pub fn read_formula_alone(alloc: Global, bytes: &[u8]) -> Result<Node, FormError>
    ensures found { GivesBy tree_of result (formula_of bytes.now) }
    ensures most { IfOk result (λ node. size_of (tree_of node) ≤ 16777216) }
{
    let value = parse(alloc, bytes)?;
    let formula = read_formula(alloc, &value)?;
    Ok(formula)
}

#[tactic(auto, unfolding(crate::specs::Request::asked_in))]
fn read_value(alloc: Global, value: &Value) -> Result<Request, FormError>
    ensures found { GivesBy asked_of result (asked_in (view value.now)) }
    ensures most { IfOk result (λ request. size_of (tree_of request.formula) ≤ 16777216) }
    ensures limited { IfOk result (λ request. request.options.limit ≤ 16777216) }
{
    check_keys(value, &KEYS)?;
    let question = read_question(alloc, value)?;
    let showing = read_showing(alloc, value)?;
    let options = read_options(value)?;
    Ok(Request {
        book: question.book,
        cell: question.cell,
        formula: question.formula,
        formats: showing.formats,
        locale: showing.locale,
        options,
    })
}
