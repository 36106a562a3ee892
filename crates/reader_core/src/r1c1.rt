ghost use Rattle.std.specs.Prelude.{◌≡◌, ◌≤◌, ◌<◌, ◌+ℤ◌, ◌≤ℤ◌, pos, negsuc, length, option_and_then, IfSome};
ghost use Rattle.std.specs.List.{position_or_len};
ghost use Rattle.std.specs.Option.{option_copied};
ghost use Rattle.reader_core.specs.R1C1.{in_brackets, is_c, line_of, moved, negative, on_axis, r1c1_ends, r1c1_spot, row_and_column, same_ends, signed_digits, spot_at};
ghost use Rattle.reader_core.specs.Spot.{ends_at, positive};

use crate::spot::{Ends, Spot, colon_place};
use address_core::few_digits;
use value_core::{CellReferenceIndex, LAST_COLUMN, LAST_ROW};

/// The corners of a reference, or of two with `:` between them, as they are read in a cell. `None` exactly for any other text, and
/// where a row or a column is none of the sheet.
pub(crate) fn r1c1_ends(cell: CellReferenceIndex, text: &[u8]) -> Option<Ends>
    ensures { result ≡ r1c1_ends cell.row cell.column text.now }
{
    let place = colon_place(text);
    if place < text.len() {
        ends_at(
            r1c1_spot(cell, &text[..place]),
            r1c1_spot(cell, &text[place + 1..]),
        )
    } else {
        same_ends(r1c1_spot(cell, text))
    }
}

fn ends_at(one: Option<Spot>, other: Option<Spot>) -> Option<Ends>
    ensures { result ≡ ends_at one other }
{
    match (one, other) {
        (Some(one), Some(other)) => Some(Ends { one, other }),
        _ => None,
    }
}

fn same_ends(spot: Option<Spot>) -> Option<Ends>
    ensures { result ≡ same_ends spot }
{
    match spot {
        Some(spot) => Some(Ends {
            one: spot,
            other: spot,
        }),
        None => None,
    }
}

fn r1c1_spot(cell: CellReferenceIndex, text: &[u8]) -> Option<Spot>
    ensures { result ≡ r1c1_spot cell.row cell.column text.now }
{
    match text.split_first() {
        Some((first, rest)) => {
            if first.to_ascii_uppercase() == b'R' {
                row_and_column(cell, rest)
            } else {
                None
            }
        }
        None => None,
    }
}

/// How many bytes of a text stand before its first `C`, in either case, or all of them.
fn c_place(text: &[u8]) -> usize
    ensures place { result ≡ position_or_len is_c text.now }
    ensures within { result ≤ length text.now }
{
    text.iter()
        .take_while(|byte| byte.to_ascii_uppercase() != b'C')
        .count()
}

fn row_and_column(cell: CellReferenceIndex, text: &[u8]) -> Option<Spot>
    ensures { result ≡ row_and_column cell.row cell.column text.now }
{
    let place = c_place(text);
    if place < text.len() {
        let row = row_on_sheet(cell, &text[..place]);
        let column = column_on_sheet(cell, &text[place + 1..]);
        spot_at(row, column)
    } else {
        None
    }
}

fn spot_at(row: Option<i32>, column: Option<i32>) -> Option<Spot>
    ensures { result ≡ spot_at row column }
{
    match (row, column) {
        (Some(row), Some(column)) => Some(Spot { row, column }),
        _ => None,
    }
}

fn row_on_sheet(cell: CellReferenceIndex, text: &[u8]) -> Option<i32>
    ensures { result ≡ option_and_then (on_axis (pos 1048576)) (line_of cell.row text.now) }
{
    on_axis(LAST_ROW, line_of(cell.row, text))
}

fn column_on_sheet(cell: CellReferenceIndex, text: &[u8]) -> Option<i32>
    ensures { result ≡ option_and_then (on_axis (pos 16384)) (line_of cell.column text.now) }
{
    on_axis(LAST_COLUMN, line_of(cell.column, text))
}

fn on_axis(last: i32, line: Option<i64>) -> Option<i32>
    ensures { result ≡ option_and_then (on_axis last) line }
{
    match line {
        Some(line) => within(last, line),
        None => None,
    }
}

fn within(last: i32, line: i64) -> Option<i32>
    ensures { result ≡ on_axis last line }
{
    if 1 <= line && line <= i64::from(last) {
        Some(line as i32)
    } else {
        None
    }
}

fn line_of(own: i32, text: &[u8]) -> Option<i64>
    ensures { result ≡ line_of own text.now }
{
    match text.split_first() {
        Some((first, rest)) => {
            if *first == b'[' {
                moved(own, in_brackets(rest))
            } else {
                positive(few_digits(text))
            }
        }
        None => Some(i64::from(own)),
    }
}

fn moved(own: i32, digits: Option<&[u8]>) -> Option<i64>
    ensures { result ≡ moved own (option_and_then signed_digits (option_copied digits.entry)) }
{
    match digits {
        Some(digits) => match signed_digits(digits) {
            Some(number) => Some(i64::from(own) + number),
            None => None,
        },
        None => None,
    }
}

fn in_brackets(text: &[u8]) -> Option<&[u8]>
    ensures { option_copied result ≡ in_brackets text.now }
{
    match text.split_last() {
        Some((last, inside)) => { if *last == b']' { Some(inside) } else { None } }
        None => None,
    }
}

fn signed_digits(text: &[u8]) -> Option<i64>
    ensures number { result ≡ signed_digits text.now }
    ensures least { IfSome result (λ number. negsuc 9999999 ≤ℤ number) }
    ensures most { IfSome result (λ number. number ≤ℤ pos 10000000) }
{
    match text.split_first() {
        Some((first, rest)) => {
            if *first == b'-' {
                negative(few_digits(rest))
            } else {
                positive(few_digits(text))
            }
        }
        None => None,
    }
}

fn positive(number: Option<u32>) -> Option<i64>
    ensures { result ≡ positive number }
{
    match number {
        Some(number) => Some(i64::from(number)),
        None => None,
    }
}

fn negative(number: Option<u32>) -> Option<i64>
    ensures { result ≡ negative number }
{
    match number {
        Some(number) => Some(-i64::from(number)),
        None => None,
    }
}
