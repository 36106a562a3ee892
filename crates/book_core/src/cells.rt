ghost use Rattle.std.specs.Prelude.{◌≡◌, ◌<◌, length};
ghost use Rattle.value_core.specs.declared.array.ArrayNode.TheVariants.{Empty};

use crate::held::Held;
use std::collections::BTreeMap;
use value_core::{ArrayNode, Texts};

/// A book in memory: an ordered map of the cells that were set.
#[derive(Debug, Drop)]
pub struct MemoryBook {
    pub(crate) sheets: Texts,
    pub(crate) cells: BTreeMap<(u32, (i32, i32)), Held>,
    /// The value of every cell that the book doesn't hold, to be lent.
    pub(crate) blank: ArrayNode,
    pub(crate) ghost is_blank: { blank ≡ Empty },
    pub(crate) ghost few_sheets: { length sheets < 4294967296 },
}
