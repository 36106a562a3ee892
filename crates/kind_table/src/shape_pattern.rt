ghost use Rattle.std.specs.Prelude.{◌≡◌};
ghost use Rattle.kind_table.specs.ShapePattern.{shape_by};

use crate::arguments::scalar_arguments;
use crate::static_result::StaticResult;

/// How a call has its shape from those of its arguments.
#[derive(Clone, Copy, Debug)]
pub enum ShapePattern {
    /// One value, whatever the arguments.
    Scalar,
    /// That of a function of single values.
    ScalarArguments,
    /// Never known.
    Unknown,
    /// That of the second argument as an array; one value where there is none.
    SecondArgument,
    /// Not known with three arguments, else one value.
    UnknownOfThree,
}

impl ShapePattern {
    /// The shape of a call over arguments of these shapes.
    pub fn shape(self, shapes: &[StaticResult]) -> StaticResult
        ensures { result ≡ shape_by self shapes.now }
    {
        match self {
            ShapePattern::Scalar => StaticResult::Scalar,
            ShapePattern::ScalarArguments => scalar_arguments(shapes),
            ShapePattern::Unknown => StaticResult::Unknown,
            ShapePattern::SecondArgument => match shapes.get(1) {
                Some(second) => second.as_array(),
                None => StaticResult::Scalar,
            },
            ShapePattern::UnknownOfThree => {
                if shapes.len() == 3 {
                    StaticResult::Unknown
                } else {
                    StaticResult::Scalar
                }
            }
        }
    }
}
