ghost use Rattle.std.specs.Prelude.{◌≡◌, ◌↔◌, IsTrue, IfOk, string_bytes};
ghost use Rattle.key_core.specs.Key.{folded, key_of};

use caseless::default_case_fold_str;
use std::alloc::Global;
use std::hash::{Hash, Hasher};
use value_core::{ArrayNode, Error, Memory, Text};

/// By what an element is told apart from others. A text stands for all texts that differ from it in case alone.
#[derive(Debug, Drop)]
pub enum CellKey {
    /// A number in millionths.
    Number(i64),
    Boolean(bool),
    /// A text after its case folding.
    Str(Text),
    Error(Error),
    Empty,
}

impl CellKey {
    /// Whether the two keys are one: what `==` tells, with one clause.
    pub fn is(&self, other: &CellKey) -> bool
        ensures { IsTrue result ↔ (self.now ≡ other.now) }
    {
        match (self, other) {
            (CellKey::Number(number), CellKey::Number(other)) => *number == *other,
            (CellKey::Boolean(value), CellKey::Boolean(other)) => *value == *other,
            (CellKey::Str(text), CellKey::Str(other)) => text.is(other),
            (CellKey::Error(error), CellKey::Error(other)) => *error == *other,
            (CellKey::Empty, CellKey::Empty) => true,
            _ => false,
        }
    }
}

impl PartialEq for CellKey {
    ghost use Rattle.own_items.specs.Sameness.{same, same-laws};
    ghost use Rattle.key_core.specs.contracts.key.CellKey.{the_row};

    ghost eq = { same the_row.coded };

    ghost laws = { same-laws the_row.coded };

    /// Whether the two keys are one.
    fn eq(&self, other: &CellKey) -> bool
        ensures same_value { IsTrue result ↔ (self.now ≡ other.now) }
        ensures same_code { result ≡ same the_row.coded self.now other.now }
    {
        self.is(other)
    }
}

impl Eq for CellKey {
    ghost use Rattle.key_core.specs.Equal.{same-equivalence};
    ghost use Rattle.key_core.specs.contracts.key.CellKey.{the_row};

    ghost laws = { same-equivalence the_row.coded };
}

impl Hash for CellKey {
    ghost use Rattle.key_core.specs.Equal.{same-alike};
    ghost use Rattle.key_core.specs.Key.{key_input};
    ghost use Rattle.key_core.specs.contracts.key.CellKey.{the_row};

    ghost hash_input = { key_input };

    ghost respects_eq = { same-alike the_row.coded key_input };

    fn hash<H: Hasher>(&self, state: &mut H) {
        match self {
            CellKey::Number(number) => {
                state.write_u8(0);
                number.hash(state);
            }
            CellKey::Boolean(value) => {
                state.write_u8(1);
                value.hash(state);
            }
            CellKey::Str(text) => {
                state.write_u8(2);
                text.as_str().hash(state);
            }
            CellKey::Error(error) => {
                state.write_u8(3);
                error.name().hash(state);
            }
            CellKey::Empty => state.write_u8(4),
        }
    }
}

/// The key of an element. Two elements have equal keys exactly where they are of one kind and equal, texts where their
/// default case foldings are equal. A blank equals a blank alone, and so differs from 0, from FALSE and from the empty text.
pub fn cell_key(alloc: Global, element: &ArrayNode) -> Result<CellKey, Memory>
    ensures { IfOk result (λ key. key ≡ key_of element.now) }
{
    match element {
        ArrayNode::Number(number) => Ok(CellKey::Number(*number)),
        ArrayNode::Boolean(value) => Ok(CellKey::Boolean(*value)),
        ArrayNode::String(text) => {
            let folded = folded(alloc, text.as_str())?;
            Ok(CellKey::Str(folded))
        }
        ArrayNode::Error(error) => Ok(CellKey::Error(*error)),
        ArrayNode::Empty => Ok(CellKey::Empty),
    }
}

fn folded(alloc: Global, text: &str) -> Result<Text, Memory>
    ensures { IfOk result (λ made. made ≡ folded text.now) }
{
    let folded = default_case_fold_str(alloc, text)?;
    Text::from_text(alloc, folded.as_str())
}
