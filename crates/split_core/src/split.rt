ghost use Rattle.std.specs.Prelude.{◌≡◌, ◌≤◌, IfOk, IsTrue, length, map};
ghost use Rattle.split_core.specs.Pieces.{none_empty};
ghost use Rattle.split_core.specs.Split.{kept_pieces, longest, padded, piece_at, rows_of_pieces, split_text};

use crate::delimiters::Delimiters;
use crate::pieces::{Manner, kept_pieces};
use call_core::{Plain, Steps};
use rectangle_core::{Grid, View, grid_of};
use std::alloc::Global;
use value_core::{ArrayNode, Memory, Text};

/// Some rows of pieces as a rectangle: a row that is shorter than the longest ends in pads.
#[derive(Drop)]
struct PaddedRows<'a> {
    rows: &'a [Vec<&'a str>],
    columns: usize,
    pad: &'a ArrayNode,
    ghost some_row: { 1 ≤ length rows.now },
    ghost some_column: { 1 ≤ columns },
}

impl<'a, L> View<L> for PaddedRows<'a> {
    ghost row_count = { λ padded. length padded.rows.now };

    ghost column_count = { λ padded. padded.columns };

    ghost element = { λ padded i j. piece_at padded.pad.now (map (λ row. map (λ piece. piece.now) row.items) padded.rows.now) i j };

    fn rows(&self) -> usize {
        self.rows.len()
    }

    fn columns(&self) -> usize {
        self.columns
    }

    fn at(
        &self,
        alloc: Global,
        row: usize,
        column: usize,
        _steps: &mut Steps<L>,
    ) -> Result<ArrayNode, Memory> {
        match self.rows[row].get(column) {
            Some(piece) => Ok(ArrayNode::String(Text::from_text(alloc, piece)?)),
            None => self.pad.try_clone(alloc),
        }
    }
}

/// A text as a rectangle of its pieces: cut into rows by the delimiters of rows, and each row by those of columns, both where the
/// first of a list matches, at the earliest place. With `ignore_empty` empty rows are left out, and then empty pieces. Shorter
/// rows end in pads. `blind` takes ASCII letters of both cases as equal; all else is compared by bytes. Without delimiters of a
/// kind a text is not cut by them.
///
/// `None` exactly where no row has a piece, which comes of `ignore_empty` alone. Its caller sees to it that no delimiter is empty.
pub fn split_text(
    alloc: Global,
    text: &str,
    column_delimiters: &[Text],
    row_delimiters: &[Text],
    ignore_empty: bool,
    blind: bool,
    pad: &ArrayNode,
) -> Result<Option<Grid>, Memory>
    requires columns { IsTrue (none_empty column_delimiters.now) }
    requires rows { IsTrue (none_empty row_delimiters.now) }
    ensures { IfOk result (λ grid. grid ≡ split_text text.now column_delimiters.now row_delimiters.now ignore_empty blind pad.now) }
{
    let manner = Manner {
        ignore_empty,
        blind,
    };
    let row_delimiters = Delimiters::new(row_delimiters);
    let column_delimiters = Delimiters::new(column_delimiters);
    let rows = kept_pieces(alloc, manner, &row_delimiters, text)?;
    let rows = each_cut(alloc, manner, &column_delimiters, rows.as_slice())?;
    padded(alloc, rows.as_slice(), pad)
}

/// The pieces of each of some rows.
fn each_cut<'a>(
    alloc: Global,
    manner: Manner,
    delimiters: &Delimiters<'_>,
    rows: &[&'a str],
) -> Result<Vec<Vec<&'a str>>, Memory>
    ensures { IfOk result (λ cut. map (λ row. map (λ piece. piece.now) row.items) cut.items ≡ map (kept_pieces manner.ignore_empty manner.blind delimiters.now.texts.now) (map (λ row. row.now) rows.now)) }
{
    let mut cut = Vec::new(alloc);
    for (index, row) in rows.iter().enumerate() {
        let pieces = kept_pieces(alloc, manner, delimiters, row)?;
        cut.push(pieces)?;
    }
    Ok(cut)
}

fn longest(rows: &[Vec<&str>]) -> usize
    ensures { result ≡ longest (map (λ row. map (λ piece. piece.now) row.items) rows.now) }
{
    let mut most = 0;
    for row in rows {
        most = row.len().max(most);
    }
    most
}

fn padded(alloc: Global, rows: &[Vec<&str>], pad: &ArrayNode) -> Result<Option<Grid>, Memory>
    ensures { IfOk result (λ grid. grid ≡ padded pad.now (map (λ row. map (λ piece. piece.now) row.items) rows.now)) }
{
    let columns = longest(rows);
    if columns == 0 {
        return Ok(None);
    }
    let view = PaddedRows { rows, columns, pad };
    let mut steps = Steps::new(Plain);
    let grid = grid_of(alloc, &view, &mut steps)?;
    Ok(Some(grid))
}
