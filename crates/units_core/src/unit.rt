ghost use Rattle.std.specs.Prelude.{◌≡◌, IfOk, map};
ghost use Rattle.tree_core.specs.Formula.{tree_of};
ghost use Rattle.tree_core.specs.Tree.{forest};
ghost use Rattle.tree_core.specs.View.{leaf_in};
ghost use Rattle.units_core.specs.Unit.{binary_unit, call_unit, first_of, leaf_unit, setting, unit_at, unit_of, units_of};

use crate::class_unit::class_unit;
use crate::format_unit::format_unit;
use crate::formats::Formats;
use crate::locale::Locale;
use crate::product::product_unit;
use crate::sum::sum_unit;
use crate::units::Units;
use book_core::Book;
use call_core::Function;
use corner_core::end_at;
use kind_table::Kinds;
use std::alloc::Global;
use tree_core::{Leaf, Node, Nodes, View};
use value_core::{CellReferenceIndex, Memory, Operator};

/// What a formula's unit is found by.
#[derive(Drop)]
pub(crate) struct Setting<'a, K, B, F> {
    pub(crate) kinds: &'a K,
    pub(crate) book: &'a B,
    pub(crate) formats: &'a F,
    pub(crate) locale: &'a Locale,
    pub(crate) cell: CellReferenceIndex,
}

/// The display unit of a formula in a cell; `None` exactly where it has none. The error means want of memory.
///
/// A reference has the unit of its cell's number format, and a range that of its first written end; off the sheet there is none.
/// A sum, a product and an operator on one operand have theirs from their sides, and a call of a kind by number has that of the
/// kind's class. Nothing else has a unit.
pub fn compute_node_units<K: Kinds, B: Book, F: Formats>(
    alloc: Global,
    node: &Node,
    cell: CellReferenceIndex,
    kinds: &K,
    book: &B,
    formats: &F,
    locale: &Locale,
) -> Result<Option<Units>, Memory>
    ensures { IfOk result (λ unit. unit ≡ unit_of (setting (K.table kinds.now) (B.contents book.now).num_fmt (F.first_part formats.now) locale.now cell) (tree_of node.now)) }
{
    let setting = Setting {
        kinds,
        book,
        formats,
        locale,
        cell,
    };
    let unit = unit_of(&setting, alloc, node)?;
    Ok(unit)
}

#[cycle(unit)]
#[tactic(auto, using(crate::proofs::Shown::shown))]
fn unit_of<K: Kinds, B: Book, F: Formats>(
    here: &Setting<K, B, F>,
    alloc: Global,
    node: &Node,
) -> Result<Option<Units>, Memory>
    ensures { IfOk result (λ unit. unit ≡ unit_of (setting (K.table here.now.kinds.now) (B.contents here.now.book.now).num_fmt (F.first_part here.now.formats.now) here.now.locale.now here.now.cell) (tree_of node.now)) }
{
    match node.view() {
        View::Leaf(leaf) => leaf_unit(here, alloc, leaf),
        View::Unary { right, .. } => unit_of(here, alloc, right),
        View::Binary {
            operator,
            left,
            right,
        } => {
            let left = unit_of(here, alloc, left)?;
            let right = unit_of(here, alloc, right)?;
            binary_unit(alloc, operator, left, right)
        }
        View::Call { kind, args } => {
            let first = first_unit(here, alloc, args)?;
            call_unit(here, alloc, kind, first)
        }
        View::Closed(_) | View::Spill { .. } | View::Intersection { .. } => Ok(None),
    }
}

/// The unit of the first of some arguments.
#[cycle(unit)]
#[tactic(auto, using(crate::proofs::Shown::shown))]
fn first_unit<K: Kinds, B: Book, F: Formats>(
    here: &Setting<K, B, F>,
    alloc: Global,
    args: &Nodes,
) -> Result<Option<Units>, Memory>
    ensures { IfOk result (λ unit. unit ≡ first_of (units_of (setting (K.table here.now.kinds.now) (B.contents here.now.book.now).num_fmt (F.first_part here.now.formats.now) here.now.locale.now here.now.cell) (forest (map tree_of args.now)))) }
{
    match args.get(0) {
        Some(first) => {
            let unit = unit_of(here, alloc, first)?;
            Ok(unit)
        }
        None => Ok(None),
    }
}

fn leaf_unit<K: Kinds, B: Book, F: Formats>(
    here: &Setting<K, B, F>,
    alloc: Global,
    leaf: Leaf,
) -> Result<Option<Units>, Memory>
    ensures { IfOk result (λ unit. unit ≡ leaf_unit (setting (K.table here.now.kinds.now) (B.contents here.now.book.now).num_fmt (F.first_part here.now.formats.now) here.now.locale.now here.now.cell) (leaf_in leaf.entry)) }
{
    match leaf {
        Leaf::Reference {
            sheet_index,
            corner,
            ..
        } => unit_at(here, alloc, end_at(here.cell, sheet_index, corner)),
        Leaf::Range {
            sheet_index,
            left: first,
            ..
        } => unit_at(here, alloc, end_at(here.cell, sheet_index, first)),
        Leaf::Boolean(_)
        | Leaf::Number(_)
        | Leaf::Text(_)
        | Leaf::Error(_)
        | Leaf::Empty
        | Leaf::WrongReference { .. }
        | Leaf::WrongRange { .. }
        | Leaf::Array(_)
        | Leaf::DefinedName(_)
        | Leaf::TableName(_)
        | Leaf::Variable { .. }
        | Leaf::ParseError { .. } => Ok(None),
    }
}

fn unit_at<K: Kinds, B: Book, F: Formats>(
    here: &Setting<K, B, F>,
    alloc: Global,
    at: Option<CellReferenceIndex>,
) -> Result<Option<Units>, Memory>
    ensures { IfOk result (λ unit. unit ≡ unit_at (setting (K.table here.now.kinds.now) (B.contents here.now.book.now).num_fmt (F.first_part here.now.formats.now) here.now.locale.now here.now.cell) at) }
{
    let Some(at) = at else {
        return Ok(None);
    };
    match here.book.num_fmt(at) {
        Some(num_fmt) => format_unit(alloc, here.formats, num_fmt),
        None => Ok(None),
    }
}

fn binary_unit(
    alloc: Global,
    operator: Operator,
    left: Option<Units>,
    right: Option<Units>,
) -> Result<Option<Units>, Memory>
    ensures { IfOk result (λ unit. unit ≡ binary_unit operator left right) }
{
    match operator {
        Operator::Sum(_) => Ok(sum_unit(left, right)),
        Operator::Product(kind) => product_unit(alloc, kind, left, right),
        Operator::Concatenate | Operator::Power | Operator::Compare(_) => Ok(None),
    }
}

fn call_unit<K: Kinds, B: Book, F: Formats>(
    here: &Setting<K, B, F>,
    alloc: Global,
    kind: Function,
    first: Option<Units>,
) -> Result<Option<Units>, Memory>
    ensures { IfOk result (λ unit. unit ≡ call_unit (setting (K.table here.now.kinds.now) (B.contents here.now.book.now).num_fmt (F.first_part here.now.formats.now) here.now.locale.now here.now.cell) kind first) }
{
    match kind {
        Function::Other(id) => {
            let class = here.kinds.unit_class(id);
            class_unit(alloc, here.locale, class, first)
        }
        _ => Ok(None),
    }
}
