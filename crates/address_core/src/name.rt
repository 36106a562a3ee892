ghost use Rattle.std.specs.Prelude.{◌≡◌, IfOk};
ghost use Rattle.address_core.specs.Quote.{has_other, is_plain, needs_quotes, quote_name, starts_low};

use crate::cell_name::{is_cell_name, is_r1c1_name};
use quote_core::quoted;
use std::alloc::Global;
use unicode::properties::is_alphabetic;
use value_core::{Memory, Text};

/// The name of a sheet as it stands before a `!`: in quotes, each `'` in it doubled, where it has a character besides letters,
/// ASCII digits, `_` and `.`, where it begins with a digit or `.`, and where it reads as a cell of the sheet by letters and
/// digits, or as one by `R` and `C`. Any other name stays, the empty one among them.
pub fn quote_name(alloc: Global, name: &str) -> Result<Text, Memory>
    ensures { IfOk result (λ text. text ≡ quote_name name.now) }
{
    if needs_quotes(name) {
        let quoted = quoted(alloc, '\'', name)?;
        return Text::from_text(alloc, quoted.as_str());
    }
    Text::from_text(alloc, name)
}

fn needs_quotes(name: &str) -> bool
    ensures { result ≡ needs_quotes name.now }
{
    has_other(name)
        || starts_low(name)
        || is_cell_name(name.as_bytes())
        || is_r1c1_name(name.as_bytes())
}

fn has_other(name: &str) -> bool
    ensures { result ≡ has_other name.now }
{
    name.chars().any(|letter| !is_plain(letter))
}

fn is_plain(letter: char) -> bool
    ensures { result ≡ is_plain letter }
{
    is_alphabetic(letter) || letter.is_ascii_digit() || letter == '_' || letter == '.'
}

fn starts_low(name: &str) -> bool
    ensures { result ≡ starts_low name.now }
{
    match name.as_bytes().first() {
        Some(byte) => byte.is_ascii_digit() || *byte == b'.',
        None => false,
    }
}
