ghost use Rattle.std.specs.Prelude.{◌≡◌};
ghost use Rattle.kind_table.specs.Shape.{reduced, scalar_arguments};

use crate::static_result::StaticResult;

/// The shape of a function of single values over arguments of these shapes: with n and m the greatest rows and columns of
/// the arguments that are `Array` or `Range`, `Array(n, m)` where either is more than 1, else `Scalar`; `Unknown`
/// where an argument is.
pub fn scalar_arguments(shapes: &[StaticResult]) -> StaticResult
    ensures { result ≡ scalar_arguments shapes.now }
{
    let all = shapes
        .iter()
        .fold(StaticResult::Scalar, |all, shape| all.combined(*shape));
    reduced(all)
}

fn reduced(shape: StaticResult) -> StaticResult
    ensures { result ≡ reduced shape }
{
    match shape {
        StaticResult::Array(rows, columns) => {
            if rows > 1 || columns > 1 {
                shape
            } else {
                StaticResult::Scalar
            }
        }
        _ => shape,
    }
}
