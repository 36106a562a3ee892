ghost use Rattle.std.specs.Prelude.{◌≡◌, codes, string_bytes, IfOk};
ghost use Rattle.print_core.specs.Answer.{shape_text, size_text};

use kind_table::StaticResult;
use std::alloc::Global;
use value_core::Memory;

/// The text of a shape, as `Range(5,1)`: its rows and its columns.
pub(crate) fn shape_text(alloc: Global, shape: StaticResult) -> Result<String, Memory>
    ensures { IfOk result (λ text. string_bytes text ≡ shape_text shape) }
{
    match shape {
        StaticResult::Scalar => Ok(String::from_str(alloc, "Scalar")?),
        StaticResult::Array(rows, columns) => size_text(alloc, "Array", rows, columns),
        StaticResult::Range(rows, columns) => size_text(alloc, "Range", rows, columns),
        StaticResult::Unknown => Ok(String::from_str(alloc, "Unknown")?),
    }
}

fn size_text(alloc: Global, name: &str, rows: i32, columns: i32) -> Result<String, Memory>
    ensures { IfOk result (λ text. string_bytes text ≡ size_text name.now rows columns) }
{
    let text = format!(in alloc; "{name}({rows},{columns})")?;
    Ok(text)
}
