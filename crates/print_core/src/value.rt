ghost use Rattle.std.specs.Prelude.{◌≡◌, IfOk};
ghost use Rattle.std.specs.Option.{option_copied};
ghost use Rattle.print_core.specs.ValueLine.{one_line, value_line};

use json::Writer;
use std::alloc::Global;
use tree_core::{ArrayNode, Memory};
use value_json::write_value;

/// The line of one value: the value as compact JSON in UTF-8, or `none` where there is none, and a newline. The error means want
/// of memory.
pub fn value_line(alloc: Global, value: Option<&ArrayNode>) -> Result<Vec<u8>, Memory>
    ensures { IfOk result (λ line. line.items ≡ value_line (option_copied value.entry)) }
{
    match value {
        Some(value) => one_line(alloc, value),
        None => Ok(b"none\n".to_vec(alloc)?),
    }
}

fn one_line(alloc: Global, value: &ArrayNode) -> Result<Vec<u8>, Memory>
    ensures { IfOk result (λ line. line.items ≡ one_line value.now) }
{
    let mut writer = Writer::new(Vec::new(alloc));
    write_value(&mut writer, value)?;
    let mut line = writer.into_inner();
    line.push(b'\n')?;
    Ok(line)
}
