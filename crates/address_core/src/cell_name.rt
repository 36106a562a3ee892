ghost use Rattle.std.specs.Prelude.{◌≡◌, ◌≤◌, length};
ghost use Rattle.std.specs.List.{prefix_len, take_while};
ghost use Rattle.std.specs.Char.{is_ascii_alphabetic, is_ascii_digit};
ghost use Rattle.address_core.specs.Quote.{ends_r1c1, is_cell_name, is_letter, is_r1c1_name, past_digits, past_letters};

use crate::line::{all_digits, column_of, row_of};

/// Whether a name reads as that of a cell of the sheet.
pub(crate) fn is_cell_name(name: &[u8]) -> bool
    ensures { result ≡ is_cell_name name.now }
{
    column_of(leading_letters(name)).is_some() && row_of(past_letters(name)).is_some()
}

/// How many letters a name begins with.
fn letter_count(name: &[u8]) -> usize
    ensures count { result ≡ prefix_len is_ascii_alphabetic name.now }
    ensures within { result ≤ length name.now }
{
    name.iter()
        .take_while(|byte| byte.is_ascii_alphabetic())
        .count()
}

/// The ASCII letters that a text begins with.
pub fn leading_letters(name: &[u8]) -> &[u8]
    ensures { result.now ≡ take_while is_ascii_alphabetic name.now }
{
    &name[..letter_count(name)]
}

/// What stands behind the ASCII letters that a text begins with.
pub fn past_letters(name: &[u8]) -> &[u8]
    ensures { result.now ≡ past_letters name.now }
{
    &name[letter_count(name)..]
}

/// How many digits a name begins with.
fn digit_count(name: &[u8]) -> usize
    ensures count { result ≡ prefix_len is_ascii_digit name.now }
    ensures within { result ≤ length name.now }
{
    name.iter().take_while(|byte| byte.is_ascii_digit()).count()
}

fn past_digits(name: &[u8]) -> &[u8]
    ensures { result.now ≡ past_digits name.now }
{
    &name[digit_count(name)..]
}

fn is_letter(letter: u8, byte: u8) -> bool
    ensures { result ≡ is_letter letter byte }
{
    byte.to_ascii_uppercase() == letter
}

fn ends_r1c1(name: &[u8]) -> bool
    ensures { result ≡ ends_r1c1 name.now }
{
    match name.split_first() {
        Some((first, rest)) => is_letter(b'C', *first) && all_digits(rest),
        None => false,
    }
}

/// Whether a name reads as a cell by the numbers of its row and column, or without one of them.
pub(crate) fn is_r1c1_name(name: &[u8]) -> bool
    ensures { result ≡ is_r1c1_name name.now }
{
    match name.split_first() {
        Some((first, rest)) => is_letter(b'R', *first) && ends_r1c1(past_digits(rest)),
        None => false,
    }
}
