ghost use Rattle.std.specs.Prelude.{◌≡◌, ◌<◌, ◌++◌, IfOk, string_bytes, encode_utf8_all};
ghost use Rattle.quote_core.specs.Quoted.{doubled, quoted};

use std::alloc::Global;
use value_core::Memory;

/// A text between two marks, as two quotes, each mark in it doubled.
pub fn quoted(alloc: Global, mark: char, text: &str) -> Result<String, Memory>
    requires { mark < 128 }
    ensures { IfOk result (λ made. string_bytes made ≡ quoted mark text.now) }
{
    let mut made = String::new(alloc);
    made.push(mark)?;
    for letter in text.chars() {
        push_doubled(&mut made, mark, letter)?;
    }
    made.push(mark)?;
    Ok(made)
}

fn push_doubled(made: &mut String, mark: char, letter: char) -> Result<(), Memory>
    requires { mark < 128 }
    ensures { IfOk result (λ _. string_bytes made.new ≡ string_bytes made.old ++ encode_utf8_all (doubled mark letter)) }
{
    if letter == mark {
        made.push(letter)?;
    }
    made.push(letter)?;
    Ok(())
}
