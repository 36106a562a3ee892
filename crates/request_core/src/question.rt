ghost use Rattle.std.specs.Prelude.{◌<◌, ◌≤◌, IfOk, length};
ghost use Rattle.serde_json.specs.View.{view};
ghost use Rattle.tree_core.specs.Count.{size_of};
ghost use Rattle.tree_core.specs.Formula.{tree_of};
ghost use Rattle.value_json.specs.Reading.{Gives, GivesBy};
ghost use Rattle.request_core.specs.Question.{formula_in, question_in, question_of, sheets_in};

use crate::book::read_book;
use crate::cell::read_position;
use book_core::MemoryBook;
use formula_json::read_node;
use serde_json::Value;
use std::alloc::Global;
use tree_core::Node;
use value_core::{CellReferenceIndex, Texts};
use value_json::{FormError, member, read_texts};

/// What every request has: the book, the formula's cell in it, and the formula.
#[derive(Drop)]
pub struct Question {
    pub book: MemoryBook,
    pub cell: CellReferenceIndex,
    pub formula: Node,
}

/// What stands at the four keys that no request lacks.
#[tactic(auto, unfolding(crate::specs::Question::question_in))]
pub(crate) fn read_question(alloc: Global, request: &Value) -> Result<Question, FormError>
    ensures found { GivesBy question_of result (question_in (view request.now)) }
    ensures most { IfOk result (λ question. size_of (tree_of question.formula) ≤ 16777216) }
{
    let sheets = read_sheets(alloc, member(request, "sheets")?)?;
    let book = read_book(alloc, sheets, member(request, "cells")?)?;
    let cell = read_position(member(request, "cell")?)?;
    let formula = read_formula(alloc, member(request, "formula")?)?;
    Ok(Question {
        book,
        cell,
        formula,
    })
}

/// At most 2^32 - 1 texts.
#[tactic(auto, unfolding(crate::specs::Question::sheets_in))]
fn read_sheets(alloc: Global, value: &Value) -> Result<Texts, FormError>
    ensures found { Gives result (sheets_in (view value.now)) }
    ensures few { IfOk result (λ sheets. length sheets < 4294967296) }
{
    let sheets = read_texts(alloc, value)?;
    if sheets.len() <= u32::MAX as usize {
        Ok(sheets)
    } else {
        Err(FormError::NotOfForm)
    }
}

/// A formula of at most 16777216 nodes.
#[tactic(auto, unfolding(crate::specs::Question::formula_in))]
pub(crate) fn read_formula(alloc: Global, value: &Value) -> Result<Node, FormError>
    ensures found { GivesBy tree_of result (formula_in (view value.now)) }
    ensures most { IfOk result (λ node. size_of (tree_of node) ≤ 16777216) }
{
    let node = read_node(alloc, value)?;
    if node.has_at_most(16777216) {
        Ok(node)
    } else {
        Err(FormError::NotOfForm)
    }
}
