ghost use Rattle.std.specs.Prelude.{◌≡◌, IfOk};
ghost use Rattle.request_core.specs.Request.{asked_of};
ghost use Rattle.generator_core.specs.Request.{generated};

use crate::book::generated_book;
use crate::formula::generated_formula;
use request_core::{Options, Request};
use std::alloc::Global;
use units_core::{Locale, MapFormats};
use value_core::{CellReferenceIndex, Memory};

/// The request that a seed makes. Its one sheet has 1000 rows of a text, a truth value and a number in the columns A, B and C, which
/// depend on the seed. In E1 stands a sum of 41 terms over them: `SUM(FILTER(C1:C1000,B1:B1000))`, and in turn an `INDEX` of one of
/// the numbers, `C1:C1000` as it is, and `ROWS(UNIQUE(A1:A1000))`. So one value is wanted of some ranges, and some are large.
pub fn generated_request(alloc: Global, seed: u32) -> Result<Request, Memory>
    ensures { IfOk result (λ request. asked_of request ≡ generated seed) }
{
    let book = generated_book(alloc, seed)?;
    let formula = generated_formula(alloc)?;
    let locale = Locale::standard(alloc)?;
    Ok(Request {
        book,
        cell: CellReferenceIndex {
            sheet: 0,
            row: 1,
            column: 5,
        },
        formula,
        formats: MapFormats::new(alloc),
        locale,
        options: Options::standard(),
    })
}
