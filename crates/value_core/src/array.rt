ghost use Rattle.std.specs.Prelude.{◌≡◌, ◌↔◌, ◌++◌, [], ◌∷◌, IsTrue, IfOk, OnOk, OnErr, IfErr, length, map, option_map, slice_get};

use crate::error::Error;
use crate::memory::Memory;
use crate::text::Text;
use std::alloc::Global;
use std::marker::Model;

/// An element of an array. A number is in millionths.
#[derive(Debug, Drop)]
pub enum ArrayNode {
    Number(i64),
    Boolean(bool),
    String(Text),
    Error(Error),
    Empty,
}

/// The rows of an array literal, which may be of any lengths.
#[derive(Debug, Drop)]
pub struct Rows {
    rows: Vec<Vec<ArrayNode>>,
}

impl Model for Rows {
    ghost use Rattle.std.specs.Prelude.{List, map};
    ghost use Rattle.value_core.specs.declared.array.ArrayNode.{ArrayNode};

    ghost Value = { List (List ArrayNode) };

    ghost view = { λ list. map (λ row. row.items) list.rows.items };
}

impl Rows {
    /// No row. It takes no memory.
    pub fn new(alloc: Global) -> Rows
        ensures { result ≡ [] }
    {
        Rows {
            rows: Vec::new(alloc),
        }
    }

    /// Puts a row behind the others. For want of memory it is handed back, and the list stays.
    pub fn push(&mut self, row: Vec<ArrayNode>) -> Result<(), Vec<ArrayNode>>
        ensures done { OnOk result (self.new ≡ self.old ++ row.items ∷ []) }
        ensures handed_back { IfErr result (λ back. back ≡ row) }
        ensures kept { OnErr result (self.new ≡ self.old) }
    {
        match self.rows.push(row) {
            Ok(()) => Ok(()),
            Err(failed) => Err(failed.value),
        }
    }

    /// How many rows there are.
    pub fn len(&self) -> usize
        ensures { result ≡ length self.now }
    {
        self.rows.len()
    }

    /// The elements of a row by its number, from 0; `None` exactly past the last row.
    pub fn get(&self, row: usize) -> Option<&[ArrayNode]>
        ensures { option_map (λ elements. elements.now) result ≡ slice_get self.now row }
    {
        match self.rows.get(row) {
            Some(elements) => Some(elements.as_slice()),
            None => None,
        }
    }

    /// Equal rows.
    pub fn try_clone(&self, alloc: Global) -> Result<Rows, Memory>
        ensures { IfOk result (λ copy. copy ≡ self.now) }
    {
        let rows = clone_rows(alloc, self.rows.as_slice())?;
        Ok(Rows { rows })
    }
}

fn clone_rows(alloc: Global, rows: &[Vec<ArrayNode>]) -> Result<Vec<Vec<ArrayNode>>, Memory>
    ensures { IfOk result (λ copy. map (λ elements. elements.items) copy.items ≡ map (λ elements. elements.items) rows.now) }
{
    let mut copy = Vec::new(alloc);
    for (index, elements) in rows.iter().enumerate() {
        let elements = clone_elements(alloc, elements.as_slice())?;
        copy.push(elements)?;
    }
    Ok(copy)
}

fn clone_elements(alloc: Global, elements: &[ArrayNode]) -> Result<Vec<ArrayNode>, Memory>
    ensures { IfOk result (λ copy. copy.items ≡ elements.now) }
{
    let mut copy = Vec::new(alloc);
    for (index, element) in elements.iter().enumerate() {
        let element = element.try_clone(alloc)?;
        copy.push(element)?;
    }
    Ok(copy)
}

impl ArrayNode {
    /// An equal element.
    pub fn try_clone(&self, alloc: Global) -> Result<ArrayNode, Memory>
        ensures { IfOk result (λ copy. copy ≡ self.now) }
    {
        match self {
            ArrayNode::Number(number) => Ok(ArrayNode::Number(*number)),
            ArrayNode::Boolean(value) => Ok(ArrayNode::Boolean(*value)),
            ArrayNode::String(text) => Ok(ArrayNode::String(text.try_clone(alloc)?)),
            ArrayNode::Error(error) => Ok(ArrayNode::Error(*error)),
            ArrayNode::Empty => Ok(ArrayNode::Empty),
        }
    }

    /// Whether the two elements are one: what `==` tells, with one clause.
    pub fn is(&self, other: &ArrayNode) -> bool
        ensures { IsTrue result ↔ (self.now ≡ other.now) }
    {
        match (self, other) {
            (ArrayNode::Number(number), ArrayNode::Number(other)) => *number == *other,
            (ArrayNode::Boolean(value), ArrayNode::Boolean(other)) => *value == *other,
            (ArrayNode::String(text), ArrayNode::String(other)) => text.is(other),
            (ArrayNode::Error(error), ArrayNode::Error(other)) => *error == *other,
            (ArrayNode::Empty, ArrayNode::Empty) => true,
            _ => false,
        }
    }
}

impl PartialEq for ArrayNode {
    ghost use Rattle.own_items.specs.Sameness.{same, same-laws};
    ghost use Rattle.value_core.specs.contracts.array.ArrayNode.{the_row};

    ghost eq = { same the_row.coded };

    ghost laws = { same-laws the_row.coded };

    /// Whether the two elements are one.
    fn eq(&self, other: &ArrayNode) -> bool
        ensures same_value { IsTrue result ↔ (self.now ≡ other.now) }
        ensures same_code { result ≡ same the_row.coded self.now other.now }
    {
        self.is(other)
    }
}

impl PartialEq for Rows {
    ghost use Rattle.std.specs.Coded.{coded_list};
    ghost use Rattle.own_items.specs.Sameness.{same, same-laws};
    ghost use Rattle.value_core.specs.contracts.array.ArrayNode.{the_row};

    ghost eq = { same (coded_list (coded_list the_row.coded)) };

    ghost laws = { same-laws (coded_list (coded_list the_row.coded)) };

    /// Whether the two arrays have the same rows.
    fn eq(&self, other: &Rows) -> bool
        ensures same_value { IsTrue result ↔ (self.now ≡ other.now) }
        ensures same_code { result ≡ same (coded_list (coded_list the_row.coded)) self.now other.now }
    {
        self.is(other)
    }
}

impl Rows {
    /// Whether the two arrays have the same rows: what `==` tells, with one clause.
    pub fn is(&self, other: &Rows) -> bool
        ensures { IsTrue result ↔ (self.now ≡ other.now) }
    {
        are_rows(self.rows.as_slice(), other.rows.as_slice())
    }
}

fn are_rows(rows: &[Vec<ArrayNode>], others: &[Vec<ArrayNode>]) -> bool
    ensures { IsTrue result ↔ (map (λ elements. elements.items) rows.now ≡ map (λ elements. elements.items) others.now) }
{
    if rows.len() != others.len() {
        return false;
    }
    for (index, elements) in rows.iter().enumerate() {
        if !are_elements(elements.as_slice(), others[index].as_slice()) {
            return false;
        }
    }
    true
}

fn are_elements(elements: &[ArrayNode], others: &[ArrayNode]) -> bool
    ensures { IsTrue result ↔ (elements.now ≡ others.now) }
{
    if elements.len() != others.len() {
        return false;
    }
    for (index, element) in elements.iter().enumerate() {
        if !element.is(&others[index]) {
            return false;
        }
    }
    true
}
