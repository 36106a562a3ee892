ghost use Rattle.std.specs.Prelude.{◌≡◌, ◌<◌, ◌≤◌, ◌+◌, ◌^◌, ◌++◌, [], ◌∷◌, IfOk, string_bytes};
ghost use Rattle.number_core.specs.NumberText.{fraction_digits, fraction_text, number_text};

use std::alloc::Global;
use value_core::{Memory, Text};

/// The text of a number in millionths: `-` if it is negative, the whole part, and where the fraction isn't 0 a `.` and its
/// six digits without zeros at the end.
pub fn number_text(alloc: Global, number: i64) -> Result<Text, Memory>
    ensures { IfOk result (λ text. text ≡ number_text number) }
{
    let string = number_string(alloc, number)?;
    let text = Text::from_text(alloc, string.as_str())?;
    Ok(text)
}

fn number_string(alloc: Global, number: i64) -> Result<String, Memory>
    ensures { IfOk result (λ string. string_bytes string ≡ number_text number) }
{
    let magnitude = number.unsigned_abs();
    let whole = magnitude / 1000000;
    let mut string = if number < 0 {
        format!(in alloc; "-{whole}")?
    } else {
        format!(in alloc; "{whole}")?
    };
    push_fraction(&mut string, (magnitude % 1000000) as u32)?;
    Ok(string)
}

fn push_fraction(text: &mut String, fraction: u32) -> Result<(), Memory>
    requires { fraction < 1000000 }
    ensures { IfOk result (λ _. string_bytes text.new ≡ string_bytes text.old ++ fraction_text fraction) }
{
    if fraction == 0 {
        return Ok(());
    }
    text.push('.')?;
    push_digits(text, 6, fraction)
}

fn push_digits(text: &mut String, places: u32, rest: u32) -> Result<(), Memory>
    requires places { places ≤ 6 }
    requires rest { rest < 10 ^ places }
    ensures { IfOk result (λ _. string_bytes text.new ≡ string_bytes text.old ++ fraction_digits places rest) }
{
    if places == 0 || rest == 0 {
        return Ok(());
    }
    let place = 10u32.pow(places - 1);
    push_digit(text, rest / place)?;
    push_digits(text, places - 1, rest % place)?;
    Ok(())
}

fn push_digit(text: &mut String, digit: u32) -> Result<(), Memory>
    requires { digit < 10 }
    ensures { IfOk result (λ _. string_bytes text.new ≡ string_bytes text.old ++ (48 + digit) ∷ []) }
{
    text.push(char::from(b'0' + digit as u8))?;
    Ok(())
}
