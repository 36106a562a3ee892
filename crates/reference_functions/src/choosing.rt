ghost use Rattle.std.specs.Prelude.{◌≡◌, ◌≤◌, ◌+◌, IfOk};
ghost use Rattle.rectangle_core.specs.Rectangle.{element_at, height, or_blank, width};
ghost use Rattle.result_core.specs.Finding.{with_reference};
ghost use Rattle.result_core.specs.Intersection.{first_of};
ghost use Rattle.argument_core.specs.Check.{Gives};
ghost use Rattle.reference_functions.specs.Choosing.{choice_at, choice_by, choose_call, choose_in, chosen_alone, chosen_element, chosen_rows, element_at_place, met_element, place_named, place_of, single_element};

use argument_core::{Stop, at_least_two};
use book_core::{Reads, implicit_intersection};
use call_core::Steps;
use grid_core::CalcResult;
use number_core::{saturating_i64_to_usize, trunc};
use operand_core::cast_to_number;
use rectangle_core::{Grid, Value, View, grid_of};
use result_core::Found;
use std::alloc::Global;
use value_core::{ArrayNode, CellReferenceIndex, Error, Memory, Range};

fn place_of(number: usize) -> Result<usize, Error>
    ensures { result ≡ place_of number }
{
    if number == 0 {
        Err(Error::VALUE)
    } else {
        Ok(number - 1)
    }
}

/// Which choice an element names, from 0.
fn place_named(element: &ArrayNode) -> Result<usize, Error>
    ensures { result ≡ place_named element.now }
{
    match cast_to_number(element) {
        Ok(number) => place_of(saturating_i64_to_usize(trunc(number))),
        Err(error) => Err(error),
    }
}

/// The choice at a place, which is taken out.
fn choice_at(choices: Vec<Found>, place: usize) -> Result<Found, Error>
    ensures { result ≡ choice_at choices.items place }
{
    let mut choices = choices;
    if place < choices.len() {
        Ok(choices.swap_remove(place))
    } else {
        Err(Error::VALUE)
    }
}

fn choice_by(choices: Vec<Found>, element: &ArrayNode) -> Result<Found, Error>
    ensures { result ≡ choice_by choices.items element.now }
{
    match place_named(element) {
        Ok(place) => choice_at(choices, place),
        Err(error) => Err(error),
    }
}

fn met_element<B: Reads<L>, L>(
    alloc: Global,
    book: &B,
    found: Option<CellReferenceIndex>,
    steps: &mut Steps<L>,
) -> Result<ArrayNode, Memory>
    ensures value { IfOk result (λ element. element ≡ met_element (B.contents book.now) found) }
    ensures counted { steps.new ≤ steps.old + 1 }
{
    match found {
        Some(at) => book.value(at, steps).try_clone(alloc),
        None => Ok(ArrayNode::Error(Error::REF)),
    }
}

fn first_element(alloc: Global, grid: &Grid) -> Result<ArrayNode, Memory>
    ensures { IfOk result (λ element. element ≡ first_of grid.now) }
{
    match grid.get(0, 0) {
        Some(element) => element.try_clone(alloc),
        None => Ok(ArrayNode::Empty),
    }
}

fn element_of_result<B: Reads<L>, L>(
    alloc: Global,
    book: &B,
    cell: CellReferenceIndex,
    made: &CalcResult,
    steps: &mut Steps<L>,
) -> Result<ArrayNode, Memory>
    ensures value { IfOk result (λ element. element ≡ single_element (B.contents book.now) cell made.now) }
    ensures counted { steps.new ≤ steps.old + 1 }
{
    match made {
        CalcResult::Number(number) => Ok(ArrayNode::Number(*number)),
        CalcResult::Boolean(value) => Ok(ArrayNode::Boolean(*value)),
        CalcResult::String(text) => Ok(ArrayNode::String(text.try_clone(alloc)?)),
        CalcResult::Error { error, .. } => Ok(ArrayNode::Error(*error)),
        CalcResult::Range { left, right } => {
            let range = Range {
                left: *left,
                right: *right,
            };
            met_element(alloc, book, implicit_intersection(&cell, &range), steps)
        }
        CalcResult::Array(grid) => first_element(alloc, grid),
        CalcResult::EmptyCell => Ok(ArrayNode::Empty),
        CalcResult::EmptyArg => Ok(ArrayNode::Empty),
    }
}

/// A choice as one element.
fn single_element<B: Reads<L>, L>(
    alloc: Global,
    book: &B,
    cell: CellReferenceIndex,
    choice: &Found,
    steps: &mut Steps<L>,
) -> Result<ArrayNode, Memory>
    ensures value { IfOk result (λ element. element ≡ single_element (B.contents book.now) cell (with_reference choice.now)) }
    ensures counted { steps.new ≤ steps.old + 1 }
{
    match choice {
        Found::Cell(at) => {
            let range = Range {
                left: *at,
                right: *at,
            };
            met_element(alloc, book, implicit_intersection(&cell, &range), steps)
        }
        Found::Same(made) => element_of_result(alloc, book, cell, made, steps),
    }
}

fn element_at_place<B: Reads<L>, L>(
    alloc: Global,
    book: &B,
    cell: CellReferenceIndex,
    choices: &[Found],
    place: usize,
    steps: &mut Steps<L>,
) -> Result<ArrayNode, Memory>
    ensures value { IfOk result (λ element. element ≡ element_at_place (B.contents book.now) cell choices.now place) }
    ensures counted { steps.new ≤ steps.old + 1 }
{
    match choices.get(place) {
        Some(choice) => single_element(alloc, book, cell, choice, steps),
        None => Ok(ArrayNode::Error(Error::VALUE)),
    }
}

/// What stands in place of an element of the condition.
fn chosen_element<B: Reads<L>, L>(
    alloc: Global,
    book: &B,
    cell: CellReferenceIndex,
    choices: &[Found],
    element: &ArrayNode,
    steps: &mut Steps<L>,
) -> Result<ArrayNode, Memory>
    ensures value { IfOk result (λ chosen. chosen ≡ chosen_element (B.contents book.now) cell choices.now element.now) }
    ensures counted { steps.new ≤ steps.old + 1 }
{
    match place_named(element) {
        Ok(place) => element_at_place(alloc, book, cell, choices, place, steps),
        Err(error) => Ok(ArrayNode::Error(error)),
    }
}

/// What the elements of a condition choose, each in its place.
#[derive(Drop)]
struct Chosen<'a, B> {
    book: &'a B,
    cell: CellReferenceIndex,
    choices: &'a [Found],
    condition: &'a Grid,
}

impl<'a, B: Reads<L>, L> View<L> for Chosen<'a, B> {
    ghost row_count = { λ chosen. height chosen.condition.now };

    ghost column_count = { λ chosen. width chosen.condition.now };

    ghost element = { λ chosen i j. chosen_element (B.contents chosen.book.now) chosen.cell chosen.choices.now (or_blank (element_at chosen.condition.now i j)) };

    fn rows(&self) -> usize {
        self.condition.rows()
    }

    fn columns(&self) -> usize {
        self.condition.columns()
    }

    fn at(
        &self,
        alloc: Global,
        row: usize,
        column: usize,
        steps: &mut Steps<L>,
    ) -> Result<ArrayNode, Memory> {
        match self.condition.get(row, column) {
            Some(element) => {
                chosen_element(alloc, self.book, self.cell, self.choices, element, steps)
            }
            None => chosen_element(
                alloc,
                self.book,
                self.cell,
                self.choices,
                &ArrayNode::Empty,
                steps,
            ),
        }
    }
}

fn chosen_rows<B: Reads<L>, L>(
    alloc: Global,
    book: &B,
    cell: CellReferenceIndex,
    choices: &[Found],
    condition: &Grid,
    steps: &mut Steps<L>,
) -> Result<Grid, Memory>
    ensures { IfOk result (λ grid. grid ≡ chosen_rows (B.contents book.now) cell choices.now condition.now) }
{
    let chosen = Chosen {
        book,
        cell,
        choices,
        condition,
    };
    let grid = grid_of(alloc, &chosen, steps)?;
    Ok(grid)
}

fn chosen_alone(choices: Vec<Found>, element: &ArrayNode) -> Result<CalcResult, Stop>
    ensures { Gives result (chosen_alone choices.items element.now) }
{
    match choice_by(choices, element) {
        Ok(found) => Ok(found.into_reference()),
        Err(error) => Err(Stop::Wrong(error)),
    }
}

fn choose_in<B: Reads<L>, L>(
    alloc: Global,
    book: &B,
    cell: CellReferenceIndex,
    choices: Vec<Found>,
    condition: Value,
    steps: &mut Steps<L>,
) -> Result<CalcResult, Stop>
    ensures { Gives result (choose_in (B.contents book.now) cell choices.items condition) }
{
    match condition {
        Value::One(element) => chosen_alone(choices, &element),
        Value::Missing => Err(Stop::Wrong(Error::VALUE)),
        Value::Grid(rows) => {
            let grid = chosen_rows(alloc, book, cell, choices.as_slice(), &rows, steps)?;
            Ok(CalcResult::Array(grid))
        }
    }
}

/// CHOOSE of two arguments or more: a condition, and choices, of which the first has number 1.
///
/// A condition of one value is cut toward zero and names a choice, which is the answer with reference; a number that names none
/// is `#VALUE!`. A range or an array as condition gives an array of what each of its elements chooses: an error stays, a text that
/// is no number and a number that names no choice are `#VALUE!`, a range stands for the cell that `@` finds in it, or is `#REF!`,
/// an array for its first element, and a blank or missing choice is a blank.
pub fn choose_call<B: Reads<L>, L>(
    alloc: Global,
    book: &B,
    cell: CellReferenceIndex,
    args: Vec<Found>,
    steps: &mut Steps<L>,
) -> Result<CalcResult, Stop>
    ensures { Gives result (choose_call (B.contents book.now) cell args.items) }
{
    let asked = at_least_two(args)?;
    let condition = asked.first.into_value(alloc, book, cell, steps)?;
    choose_in(alloc, book, cell, asked.more, condition, steps)
}
