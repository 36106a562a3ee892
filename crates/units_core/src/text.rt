ghost use Rattle.std.specs.Prelude.{◌≡◌, ◌<◌, ◌++◌, length, IfOk};
ghost use Rattle.std.specs.Str.{trim};
ghost use Rattle.units_core.specs.Replace.{holds, replaced};

use std::alloc::Global;
use value_core::{Memory, Text};

/// Whether a part stands in a text.
#[tactic(auto, using(crate::proofs::Texts::texts))]
pub(crate) fn holds(text: &str, part: &str) -> bool
    ensures { result ≡ holds part.now text.now }
{
    text.contains(part)
}

/// The text with another in place of each part that is `old`, from left to right.
#[tactic(auto, using(crate::proofs::Texts::texts))]
pub(crate) fn replaced(alloc: Global, text: &str, old: &str, new: &str) -> Result<Text, Memory>
    requires { 0 < length old.now }
    ensures { IfOk result (λ made. made ≡ replaced old.now new.now text.now) }
{
    let made = text.replace(alloc, old, new)?;
    let made = Text::from_text(alloc, made.as_str())?;
    Ok(made)
}

/// The text without the white space at both ends.
pub(crate) fn trimmed(alloc: Global, text: &str) -> Result<Text, Memory>
    ensures { IfOk result (λ made. made ≡ trim text.now) }
{
    let made = Text::from_text(alloc, text.trim())?;
    Ok(made)
}

/// The one text, and the other behind it.
pub(crate) fn joined(alloc: Global, front: &str, back: &str) -> Result<Text, Memory>
    ensures { IfOk result (λ made. made ≡ front.now ++ back.now) }
{
    let made = format!(in alloc; "{front}{back}")?;
    let made = Text::from_text(alloc, made.as_str())?;
    Ok(made)
}
