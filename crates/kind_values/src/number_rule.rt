ghost use Rattle.std.specs.Prelude.{◌≡◌};
ghost use Rattle.kind_values.specs.NumberRule.{made_of_number, number_by};

use number_core::{absolute_number, floor_number, sign_number};
use operand_core::{ElementRule, cast_to_number};
use value_core::{ArrayNode, Error};

/// What is made of one number.
#[derive(Clone, Copy, Debug)]
pub(crate) enum NumberRule {
    Absolute,
    Sign,
    Floor,
}

fn number_by(rule: NumberRule, number: i64) -> Result<i64, Error>
    ensures { result ≡ number_by rule number }
{
    match rule {
        NumberRule::Absolute => absolute_number(number),
        NumberRule::Sign => Ok(sign_number(number)),
        NumberRule::Floor => floor_number(number),
    }
}

impl ElementRule for NumberRule {
    ghost use Rattle.kind_values.specs.NumberRule.{made_by};

    ghost made_of = { made_by };

    fn apply(&self, element: &ArrayNode) -> ArrayNode {
        match cast_to_number(element) {
            Ok(number) => match number_by(*self, number) {
                Ok(number) => ArrayNode::Number(number),
                Err(error) => ArrayNode::Error(error),
            },
            Err(error) => ArrayNode::Error(error),
        }
    }
}
