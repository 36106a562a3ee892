ghost use Rattle.std.specs.Prelude.{◌≡◌, ◌++◌, IfOk, string_bytes};
ghost use Rattle.std.specs.Option.{option_map, option_copied};
ghost use Rattle.address_core.specs.Address.{a1_text, a1_with, address_text, dollar, line_of, line_text, place_of, place_text, placed, prefix_of, r1c1_text, style_of, text_at};

use crate::line::letters_on_sheet;
use crate::name::quote_name;
use std::alloc::Global;
use value_core::{Memory, Text};

/// Which parts of a cell's place are absolute.
#[derive(Clone, Copy, Debug, PartialEq, Eq)]
pub struct Style {
    pub absolute_row: bool,
    pub absolute_column: bool,
}

/// A cell by its row and column, both from 1. It may lie past the sheet.
#[derive(Clone, Copy, Debug, PartialEq, Eq)]
pub struct Place {
    pub row: u32,
    pub column: u32,
    pub style: Style,
}

/// The text of a cell by its row and column, from 1, behind the name of its sheet and a `!` where one is given; the name is the
/// one before quoting. `a1` is the style of letters and digits, where a `$` stands before what is absolute; else the row stands
/// behind `R` and the column behind `C`, in brackets unless it is absolute. Both are absolute in style 1, the row alone in 2, the
/// column alone in 3, neither in 4.
///
/// `None` exactly where the row or the column is below 1, where there is no such style, and where `a1` holds and the sheet has
/// no such column. Rows are not looked up in the sheet.
pub fn address_text(
    alloc: Global,
    row: i32,
    column: i32,
    style: i32,
    a1: bool,
    sheet: Option<&str>,
) -> Result<Option<Text>, Memory>
    ensures { IfOk result (λ text. text ≡ address_text row column style a1 (option_copied sheet.entry)) }
{
    let place = match place_of(row, column, style) {
        Some(place) => place,
        None => return Ok(None),
    };
    let text = match place_text(alloc, place, a1)? {
        Some(text) => text,
        None => return Ok(None),
    };
    let prefix = prefix_of(alloc, sheet)?;
    let text = joined(alloc, prefix.as_str(), text.as_str())?;
    Ok(Some(text))
}

fn place_of(row: i32, column: i32, style: i32) -> Option<Place>
    ensures { result ≡ place_of row column style }
{
    match (line_of(row), line_of(column), style_of(style)) {
        (Some(row), Some(column), Some(style)) => Some(Place { row, column, style }),
        _ => None,
    }
}

fn line_of(number: i32) -> Option<u32>
    ensures { result ≡ line_of number }
{
    match u32::try_from(number) {
        Ok(0) => None,
        Ok(number) => Some(number),
        Err(_) => None,
    }
}

fn style_of(number: i32) -> Option<Style>
    ensures { result ≡ style_of number }
{
    let (absolute_row, absolute_column) = match number {
        1 => (true, true),
        2 => (true, false),
        3 => (false, true),
        4 => (false, false),
        _ => return None,
    };
    Some(Style {
        absolute_row,
        absolute_column,
    })
}

fn place_text(alloc: Global, place: Place, a1: bool) -> Result<Option<String>, Memory>
    ensures { IfOk result (λ text. option_map string_bytes text ≡ place_text a1 place) }
{
    if a1 {
        a1_text(alloc, place)
    } else {
        let text = r1c1_text(alloc, place)?;
        Ok(Some(text))
    }
}

fn a1_text(alloc: Global, place: Place) -> Result<Option<String>, Memory>
    ensures { IfOk result (λ text. option_map string_bytes text ≡ a1_text place) }
{
    match letters_on_sheet(alloc, place.column)? {
        Some(letters) => Ok(Some(a1_with(alloc, place, letters.as_str())?)),
        None => Ok(None),
    }
}

fn a1_with(alloc: Global, place: Place, letters: &str) -> Result<String, Memory>
    ensures { IfOk result (λ text. string_bytes text ≡ a1_with place letters.now) }
{
    let before_column = dollar(place.style.absolute_column);
    let before_row = dollar(place.style.absolute_row);
    let row = place.row;
    Ok(format!(in alloc; "{before_column}{letters}{before_row}{row}")?)
}

fn dollar(absolute: bool) -> &'static str
    ensures { result.now ≡ dollar absolute }
{
    if absolute { "$" } else { "" }
}

fn r1c1_text(alloc: Global, place: Place) -> Result<String, Memory>
    ensures { IfOk result (λ text. string_bytes text ≡ r1c1_text place) }
{
    let row = line_text(alloc, place.style.absolute_row, place.row)?;
    let column = line_text(alloc, place.style.absolute_column, place.column)?;
    Ok(format!(in alloc; "R{row}C{column}")?)
}

fn line_text(alloc: Global, absolute: bool, line: u32) -> Result<String, Memory>
    ensures { IfOk result (λ text. string_bytes text ≡ line_text absolute line) }
{
    if absolute {
        Ok(format!(in alloc; "{line}")?)
    } else {
        Ok(format!(in alloc; "[{line}]")?)
    }
}

fn prefix_of(alloc: Global, sheet: Option<&str>) -> Result<String, Memory>
    ensures { IfOk result (λ prefix. string_bytes prefix ≡ prefix_of (option_copied sheet.entry)) }
{
    match sheet {
        Some(sheet) => {
            let name = quote_name(alloc, sheet)?;
            let mut prefix = String::from_str(alloc, name.as_str())?;
            prefix.push('!')?;
            Ok(prefix)
        }
        None => Ok(String::new(alloc)),
    }
}

fn joined(alloc: Global, before: &str, behind: &str) -> Result<Text, Memory>
    ensures { IfOk result (λ text. text ≡ before.now ++ behind.now) }
{
    let mut text = String::from_str(alloc, before)?;
    text.push_str(behind)?;
    Text::from_text(alloc, text.as_str())
}
