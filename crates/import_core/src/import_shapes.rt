ghost use Rattle.std.specs.Prelude.{◌≡◌, if◌then◌else◌};
ghost use Rattle.kind_table.specs.declared.static_result.StaticResult.TheVariants.{Scalar};
ghost use Rattle.import_core.specs.Decisions.{combine};

use kind_table::StaticResult;

/// The shapes of a formula: as it is given, and after import, where one value is not wanted of it and where one is.
#[derive(Clone, Copy)]
pub(crate) struct ImportShapes {
    pub(crate) given: StaticResult,
    pub(crate) unwanted: StaticResult,
    pub(crate) wanted: StaticResult,
}

impl ImportShapes {
    /// Of a node that has this shape whatever is wanted of it.
    pub(crate) fn constant(shape: StaticResult) -> ImportShapes
        ensures { result ≡ record { given = shape; unwanted = shape; wanted = shape } }
    {
        ImportShapes {
            given: shape,
            unwanted: shape,
            wanted: shape,
        }
    }

    /// Of a node with these shapes as given and as imported, over which import puts an `@` where it is range-like.
    pub(crate) fn of(given: StaticResult, imported: StaticResult, like: bool) -> ImportShapes
        ensures { result ≡ record { given = given; unwanted = imported; wanted = (if like then Scalar else imported) } }
    {
        ImportShapes {
            given,
            unwanted: imported,
            wanted: if like { StaticResult::Scalar } else { imported },
        }
    }

    /// Of an operator over two sides.
    pub(crate) fn combine(self, right: ImportShapes) -> ImportShapes
        ensures { result ≡ combine self right }
    {
        ImportShapes {
            given: self.given.combined(right.given),
            unwanted: self.unwanted.combined(right.unwanted),
            wanted: self.wanted.combined(right.wanted),
        }
    }
}
