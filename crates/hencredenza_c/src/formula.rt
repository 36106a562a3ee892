ghost use Rattle.std.specs.Prelude.{◌≡◌};
ghost use Rattle.hencredenza_c.specs.Formed.{Formed, rule_for};

use crate::hand_over::hand_over;
use answer_core::{Status, formula_line};
use intersect::ImportRule;
use std::alloc::Global;

/// What `answer_core::formula_line` gives: a formula alone, imported and exported, by the rule where every place of one value gets an
/// `@`, or by the rule of the crate.
///
/// The result is the status's code, or 1 where the room is smaller than the line. The length is that of the line.
#[unsafe(no_mangle)]
pub extern "C" fn hencredenza_formula(
    alloc: Global,
    formula: &[u8],
    every_scalar: bool,
    room: &mut [u8],
    length: &mut usize,
) -> u32
    ensures formed { Formed (rule_for every_scalar) formula.now room.old room.new length.new result }
{
    match formula_line(alloc, rule_for(every_scalar), formula) {
        Ok(line) => hand_over(Status::Done.code(), line.as_slice(), room, length),
        Err(refusal) => hand_over(
            refusal.status().code(),
            refusal.line().as_bytes(),
            room,
            length,
        ),
    }
}

fn rule_for(every_scalar: bool) -> ImportRule
    ensures { result ≡ rule_for every_scalar }
{
    if every_scalar {
        ImportRule::EveryScalar
    } else {
        ImportRule::AsCrate
    }
}
