ghost use Rattle.std.specs.Prelude.{◌≡◌, ◌≤◌, ◌<◌, ◌^◌, ◌++◌, [], ◌∷◌, true, length, IfOk, IfSome, string_bytes};
ghost use Rattle.std.specs.Char.{is_ascii_alphabetic, is_ascii_digit};
ghost use Rattle.std.specs.List.{list_all};
ghost use Rattle.std.specs.Option.{option_map};
ghost use Rattle.std.specs.Str.Parse.{digits_value};
ghost use Rattle.address_core.specs.Line.{are_digits, are_letters, column_number, column_of, few_digits, is_column, letter, letter_value, letters_after, letters_on_sheet, number_to_column, row_of};

use std::alloc::Global;
use value_core::{Memory, Text};

const COLUMNS: u32 = 16384;

const ROWS: u32 = 1048576;

/// The letters of a column by its number, from 1: `A` to `XFD`. `None` exactly where the sheet has no such column.
pub fn number_to_column(alloc: Global, column: i32) -> Result<Option<Text>, Memory>
    ensures { IfOk result (λ letters. letters ≡ number_to_column column) }
{
    match u32::try_from(column) {
        Ok(column) => letters_text(alloc, column),
        Err(_) => Ok(None),
    }
}

fn letters_text(alloc: Global, column: u32) -> Result<Option<Text>, Memory>
    ensures { IfOk result (λ letters. letters ≡ letters_on_sheet column) }
{
    match letters_on_sheet(alloc, column)? {
        Some(letters) => Ok(Some(Text::from_text(alloc, letters.as_str())?)),
        None => Ok(None),
    }
}

/// The letters of a column of the sheet; `None` exactly where the sheet has no such column.
pub(crate) fn letters_on_sheet(alloc: Global, column: u32) -> Result<Option<String>, Memory>
    ensures { IfOk result (λ letters. option_map string_bytes letters ≡ letters_on_sheet column) }
{
    if !is_column(column) {
        return Ok(None);
    }
    let letters = letters_after(alloc, column - 1)?;
    Ok(Some(letters))
}

fn is_column(column: u32) -> bool
    ensures { result ≡ is_column column }
{
    1 <= column && column <= COLUMNS
}

/// The letters of the column that has so many columns before it.
fn letters_after(alloc: Global, before: u32) -> Result<String, Memory>
    requires { before < 16384 }
    ensures { IfOk result (λ letters. string_bytes letters ≡ letters_after before) }
{
    let mut letters = String::new(alloc);
    if before < 26 {
        push_letter(&mut letters, before)?;
    } else if before < 702 {
        push_letter(&mut letters, (before - 26) / 26)?;
        push_letter(&mut letters, (before - 26) % 26)?;
    } else {
        push_letter(&mut letters, (before - 702) / 676)?;
        push_letter(&mut letters, (before - 702) / 26 % 26)?;
        push_letter(&mut letters, (before - 702) % 26)?;
    }
    Ok(letters)
}

fn push_letter(letters: &mut String, number: u32) -> Result<(), Memory>
    requires { number < 26 }
    ensures { IfOk result (λ _. string_bytes letters.new ≡ string_bytes letters.old ++ letter number ∷ []) }
{
    letters.push(char::from(b'A' + number as u8))?;
    Ok(())
}

/// The number of a column, from 1, by its one to three letters in either case; `None` exactly for any other text and past
/// the last column of the sheet.
pub fn column_of(text: &[u8]) -> Option<u32>
    ensures number { result ≡ column_of text.now }
    ensures small { IfSome result (λ number. number ≤ 16384) }
{
    if !are_letters(text) {
        return None;
    }
    let number = column_number(text);
    if number > COLUMNS {
        return None;
    }
    Some(number)
}

fn are_letters(text: &[u8]) -> bool
    ensures { result ≡ are_letters text.now }
{
    1 <= text.len() && text.len() <= 3 && all_letters(text)
}

fn all_letters(text: &[u8]) -> bool
    ensures { result ≡ list_all is_ascii_alphabetic text.now }
{
    text.iter().all(|byte| byte.is_ascii_alphabetic())
}

fn letter_value(letter: u8) -> u32
    ensures value { result ≡ letter_value letter }
    ensures small { result ≤ 255 }
{
    u32::from(letter.to_ascii_uppercase().saturating_sub(64))
}

fn column_number(letters: &[u8]) -> u32
    requires { length letters.now ≤ 3 }
    ensures { result ≡ column_number letters.now }
{
    let mut number = 0;
    for letter in letters {
        number = number * 26 + letter_value(*letter);
    }
    number
}

/// The number of a row, from 1, by its one to seven digits, the first not 0; `None` exactly for any other text and past the
/// last row of the sheet.
pub fn row_of(text: &[u8]) -> Option<u32>
    ensures number { result ≡ row_of text.now }
    ensures small { IfSome result (λ number. number ≤ 1048576) }
{
    if text.first() == Some(&b'0') {
        return None;
    }
    match few_digits(text) {
        Some(number) if number <= ROWS => Some(number),
        _ => None,
    }
}

/// The number that one to seven digits say; `None` exactly for any other text.
pub fn few_digits(text: &[u8]) -> Option<u32>
    ensures number { result ≡ few_digits text.now }
    ensures small { IfSome result (λ number. number < 10 ^ 7) }
{
    if !are_digits(text) {
        return None;
    }
    Some(digits_value(text))
}

fn are_digits(text: &[u8]) -> bool
    ensures { result ≡ are_digits text.now }
{
    1 <= text.len() && text.len() <= 7 && all_digits(text)
}

pub(crate) fn all_digits(text: &[u8]) -> bool
    ensures { result ≡ list_all is_ascii_digit text.now }
{
    text.iter().all(|byte| byte.is_ascii_digit())
}

fn digits_value(digits: &[u8]) -> u32
    requires few { length digits.now ≤ 7 }
    requires all { list_all is_ascii_digit digits.now ≡ true }
    ensures value { result ≡ digits_value 10 digits.now }
    ensures small { result < 10 ^ 7 }
{
    let mut number = 0;
    for digit in digits {
        number = number * 10 + u32::from(*digit - b'0');
    }
    number
}
