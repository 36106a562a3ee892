ghost use Rattle.std.specs.Prelude.{◌≡◌, ◌+◌, ◌++◌, ◌<◌, ◌≤◌, IfOk, IsTrue, None, length, map};
ghost use Rattle.std.specs.List.{list_all};
ghost use Rattle.book_core.specs.Contents.{Contents, read};
ghost use Rattle.validity_core.specs.Good.{is_array};
ghost use Rattle.position_core.specs.Place.{HasNumbers};
ghost use Rattle.argument_core.specs.Check.{Gives};
ghost use Rattle.own_functions.specs.Own.{own_result};
ghost use Rattle.nest_core.specs.Asked.{arguments_refused};
ghost use Rattle.nest_core.specs.Built.{Shows, array_found, held_in, is_constant, moved_nest, nest_asked, size_of_nest};
ghost use Rattle.nest_core.specs.Plain.{arrays_of};
ghost use Rattle.nest_core.specs.Rows.{rows_in};
ghost use Rattle.nest_core.specs.Shown.{are_sizes, is_sound, known};

use crate::asked::{Asked, asked_of};
use crate::nest::Nest;
use crate::plain::is_sequence;
use crate::plain_nest::PlainNest;
use crate::sequence::sequence_asked;
use argument_core::Stop;
use call_core::Function;
use own_items::Items;
use position_core::{Fitted, Size, reshaped_size};
use rectangle_core::Grid;
use result_core::Found;
use std::alloc::Global;
use value_core::{CellReferenceIndex, Memory, Range};

impl PlainNest {
    /// The cells of a range. None is read, and it takes no memory.
    #[tactic(auto, using(crate::proofs::Builts::builts))]
    pub fn of_range(range: Range) -> PlainNest
        ensures { (book : Contents) → rows_in book result ≡ read book range.left range.right }
    {
        PlainNest {
            held: Nest::Cells(range),
        }
    }

    /// The elements of an array literal: at least one row and one column, at most as many as a sheet has, all rows equally long.
    #[tactic(auto, using(crate::proofs::Builts::builts))]
    pub fn of_array(grid: Grid) -> PlainNest
        requires { IsTrue (is_array grid) }
        ensures { (book : Contents) → rows_in book result ≡ grid }
    {
        PlainNest {
            held: Nest::Literal(grid),
        }
    }

    /// What a call of a nest's kinds comes to, over its arrays and then its other arguments, which read no cell: a nest, or the
    /// error of the first check that isn't passed, in the order of the checks of the function. No cell is read, and each array
    /// is looked at for its size alone. `limit` is the greatest number of elements of what EXPAND, WRAPCOLS, WRAPROWS and
    /// SEQUENCE give. `Memory` stands also for a stack with more rows or columns than a `usize` counts, for which no memory
    /// suffices.
    pub fn of_call(
        alloc: Global,
        limit: usize,
        cell: CellReferenceIndex,
        kind: Function,
        parts: Vec<PlainNest>,
        args: Vec<Found>,
    ) -> Result<PlainNest, Stop>
        requires limited { limit ≤ 16777216 }
        requires counted { arguments_refused kind (length parts.items + length args.items) ≡ None }
        requires arrays { length parts.items ≡ arrays_of kind (length parts.items + length args.items) }
        requires constant { IsTrue (list_all is_constant args.items) }
        ensures { (book : Contents) → Shows book cell result (own_result book limit cell kind (map (array_found book) parts.items ++ args.items)) }
    {
        let held = nest_asked(alloc, limit, cell, kind, parts, args)?;
        Ok(PlainNest { held })
    }
}

/// The nests whose elements a call moves, and the size of each.
#[derive(Debug, Drop)]
struct Parts {
    sizes: Items<Size>,
    nests: Items<Nest>,
    ghost sound: { IsTrue (are_sizes sizes (map known nests)) },
}

fn parts_of(alloc: Global, plain_nests: Vec<PlainNest>) -> Result<Parts, Memory>
    ensures sizes { IfOk result (λ parts. parts.sizes ≡ map size_of_nest plain_nests.items) }
    ensures nests { IfOk result (λ parts. parts.nests ≡ map held_in plain_nests.items) }
{
    let mut sizes = Items::new(alloc);
    let mut nests = Items::new(alloc);
    for plain_nest in plain_nests {
        let PlainNest { held } = plain_nest;
        sizes.add(held.size())?;
        nests.add(held)?;
    }
    Ok(Parts { sizes, nests })
}

fn nest_asked(
    alloc: Global,
    limit: usize,
    cell: CellReferenceIndex,
    kind: Function,
    parts: Vec<PlainNest>,
    args: Vec<Found>,
) -> Result<Nest, Stop>
    requires limited { limit ≤ 16777216 }
    requires counted { arguments_refused kind (length parts.items + length args.items) ≡ None }
    requires arrays { length parts.items ≡ arrays_of kind (length parts.items + length args.items) }
    ensures nest { Gives result (nest_asked limit cell kind parts.items args.items) }
    ensures sound { IfOk result (λ nest. IsTrue (is_sound nest)) }
{
    if is_sequence(kind) {
        sequence_asked(alloc, limit, cell, args)
    } else {
        let parts = parts_of(alloc, parts)?;
        let asked = asked_of(alloc, cell, kind, parts.sizes.as_slice(), args)?;
        moved_nest(limit, parts, asked)
    }
}

fn moved_nest(limit: usize, parts: Parts, asked: Asked) -> Result<Nest, Stop>
    requires limited { limit ≤ 16777216 }
    requires some { 0 < length parts.sizes }
    requires numbers { HasNumbers asked.reshape }
    ensures nest { Gives result (moved_nest limit parts.sizes parts.nests asked) }
    ensures sound { IfOk result (λ nest. IsTrue (is_sound nest)) }
{
    let Parts { sizes, nests } = parts;
    let Asked { reshape, pad } = asked;
    match reshaped_size(&reshape, sizes.as_slice(), limit) {
        Fitted::Size(size) => Ok(Nest::Reshaped {
            reshape,
            size,
            sizes,
            parts: nests,
            pad,
        }),
        Fitted::Wrong(error) => Err(Stop::Wrong(error)),
        Fitted::TooLong => Err(Stop::Memory),
    }
}
