ghost use Rattle.std.specs.Prelude.{◌≡◌};
ghost use Rattle.address_core.specs.Line.{column_of, row_of};
ghost use Rattle.reader_core.specs.Spot.{positive};
ghost use Rattle.reader_core.specs.A1.{a1_ends, a1_part, cell_part, column_part, one_cell, part_of, past_dollar, row_part, spot, two_parts};

use crate::spot::{Ends, Spot, colon_place};
use address_core::{column_of, leading_letters, past_letters, row_of};
use value_core::{LAST_COLUMN, LAST_ROW};

/// A reference without a `:`, or a side of one. Rows and columns lie on the sheet.
#[derive(Clone, Copy)]
enum Part {
    Cell { row: i32, column: i32 },
    Column(i32),
    Row(i32),
}

/// The corners of a cell, or of two cells, columns or rows with `:` between them. `None` exactly for any other text, and where a
/// row or a column is none of the sheet.
pub(crate) fn a1_ends(text: &[u8]) -> Option<Ends>
    ensures { result ≡ a1_ends text.now }
{
    let place = colon_place(text);
    if place < text.len() {
        two_parts(a1_part(&text[..place]), a1_part(&text[place + 1..]))
    } else {
        one_cell(a1_part(text))
    }
}

fn past_dollar(text: &[u8]) -> &[u8]
    ensures { result.now ≡ past_dollar text.now }
{
    match text.split_first() {
        Some((first, rest)) => { if *first == b'$' { rest } else { text } }
        None => text,
    }
}

fn a1_part(text: &[u8]) -> Option<Part>
    ensures { result ≡ a1_part text.now }
{
    let text = past_dollar(text);
    part_of(leading_letters(text), past_letters(text))
}

fn part_of(letters: &[u8], rest: &[u8]) -> Option<Part>
    ensures { result ≡ part_of letters.now rest.now }
{
    if letters.is_empty() {
        return row_part(row_line(rest));
    }
    if rest.is_empty() {
        return column_part(column_line(letters));
    }
    cell_part(column_line(letters), row_line(past_dollar(rest)))
}

fn row_line(text: &[u8]) -> Option<i32>
    ensures { result ≡ positive (row_of text.now) }
{
    match row_of(text) {
        Some(row) => Some(row as i32),
        None => None,
    }
}

fn column_line(text: &[u8]) -> Option<i32>
    ensures { result ≡ positive (column_of text.now) }
{
    match column_of(text) {
        Some(column) => Some(column as i32),
        None => None,
    }
}

fn row_part(row: Option<i32>) -> Option<Part>
    ensures { result ≡ row_part row }
{
    match row {
        Some(row) => Some(Part::Row(row)),
        None => None,
    }
}

fn column_part(column: Option<i32>) -> Option<Part>
    ensures { result ≡ column_part column }
{
    match column {
        Some(column) => Some(Part::Column(column)),
        None => None,
    }
}

fn cell_part(column: Option<i32>, row: Option<i32>) -> Option<Part>
    ensures { result ≡ cell_part column row }
{
    match (column, row) {
        (Some(column), Some(row)) => Some(Part::Cell { row, column }),
        _ => None,
    }
}

fn spot(row: i32, column: i32) -> Spot
    ensures { result ≡ spot row column }
{
    Spot { row, column }
}

fn one_cell(part: Option<Part>) -> Option<Ends>
    ensures { result ≡ one_cell part }
{
    match part {
        Some(Part::Cell { row, column }) => {
            let one = spot(row, column);
            Some(Ends { one, other: one })
        }
        _ => None,
    }
}

fn two_parts(part: Option<Part>, other: Option<Part>) -> Option<Ends>
    ensures { result ≡ two_parts part other }
{
    let (one, other) = match (part?, other?) {
        (
            Part::Cell { row, column },
            Part::Cell {
                row: other_row,
                column: other_column,
            },
        ) => (spot(row, column), spot(other_row, other_column)),
        (Part::Column(column), Part::Column(other)) => (spot(1, column), spot(LAST_ROW, other)),
        (Part::Row(row), Part::Row(other)) => (spot(row, 1), spot(other, LAST_COLUMN)),
        _ => return None,
    };
    Some(Ends { one, other })
}
