ghost use Rattle.std.specs.Prelude.{◌≡◌, ◌+ℤ◌, ◌*ℤ◌, pos};
ghost use Rattle.position_core.specs.Sequence.{sequence_element, steps_from};

use number_core::number_in_range;
use value_core::ArrayNode;

/// The element of a sequence with this index, from 0: the start and so many steps, all in millionths, reckoned exactly;
/// `#NUM!` exactly where that is out of range.
pub fn sequence_element(index: usize, start: i64, step: i64) -> ArrayNode
    ensures { result ≡ sequence_element index start step }
{
    match number_in_range(steps_from(index, start, step)) {
        Ok(number) => ArrayNode::Number(number),
        Err(error) => ArrayNode::Error(error),
    }
}

fn steps_from(index: usize, start: i64, step: i64) -> i128
    ensures { result ≡ steps_from index start step }
{
    i128::from(start) + index as i128 * i128::from(step)
}
