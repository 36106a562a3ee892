ghost use Rattle.std.specs.Prelude.{◌≡◌, ◌+◌, ◌≤◌, IfOk, None, OnOk, pos};
ghost use Rattle.value_core.specs.declared.array.ArrayNode.TheVariants as elements;
ghost use Rattle.book_core.specs.Contents.{IsSetCell};
ghost use Rattle.book_core.specs.Held.{contents_of};
ghost use Rattle.generator_core.specs.Sheet.{amount, is_kept, item, sheet_with};

use book_core::MemoryBook;
use std::alloc::Global;
use value_core::{ArrayNode, CellReferenceIndex, Memory, Text};

/// A book of one sheet with 1000 filled rows.
pub(crate) fn generated_book(alloc: Global, seed: u32) -> Result<MemoryBook, Memory>
    ensures { IfOk result (λ book. contents_of book ≡ sheet_with seed 1000) }
{
    let mut book = MemoryBook::new(alloc);
    book.add_sheet(Text::from_text(alloc, "Sheet1")?)?;
    for filled in 0..1000u16 {
        fill_row(alloc, &mut book, seed, filled)?;
    }
    Ok(book)
}

/// Fills the row behind the first ones.
fn fill_row(alloc: Global, book: &mut MemoryBook, seed: u32, filled: u16) -> Result<(), Memory>
    ensures { OnOk result (contents_of book.old ≡ sheet_with seed filled → contents_of book.new ≡ sheet_with seed (filled + 1)) }
{
    let row = u32::from(filled) + 1;
    set(book, row, 3, amount_element(seed, row))?;
    set(book, row, 2, ArrayNode::Boolean(is_kept(seed, row)))?;
    set(book, row, 1, ArrayNode::String(item(alloc, seed, row)?))?;
    Ok(())
}

/// Puts a value into a cell of the sheet.
fn set(book: &mut MemoryBook, row: u32, column: i32, value: ArrayNode) -> Result<(), Memory>
    requires { row ≤ 65536 }
    ensures { OnOk result (IsSetCell (contents_of book.old) (contents_of book.new)
        (record { sheet = 0; row = pos row; column = column }) value None None) }
{
    let cell = CellReferenceIndex {
        sheet: 0,
        row: row as i32,
        column,
    };
    book.set(cell, value, None, None)
}

fn item(alloc: Global, seed: u32, row: u32) -> Result<Text, Memory>
    ensures { IfOk result (λ text. text ≡ item seed row) }
{
    let number = (7 * u64::from(row) + u64::from(seed)) % 50;
    let text = format!(in alloc; "item-{number}")?;
    Text::from_text(alloc, text.as_str())
}

fn is_kept(seed: u32, row: u32) -> bool
    ensures { result ≡ is_kept seed row }
{
    u64::from(row) * u64::from(seed) % 3 == 0
}

fn amount_element(seed: u32, row: u32) -> ArrayNode
    ensures { result ≡ elements.Number (amount seed row) }
{
    let number = (31 * u64::from(row) + u64::from(seed)) % 1000;
    ArrayNode::Number((number * 1000000) as i64)
}
