ghost use Rattle.std.specs.Prelude.{◌≡◌, slice_get};

use kind_table::StaticResult;
use std::marker::Model;

/// The shapes of a formula and of all its parts. They go by the numbers of the nodes from 0: a node before its children, these
/// from left to right, and each `@` is a node.
#[derive(Debug, Drop)]
pub struct Shapes {
    pub(crate) all: Vec<StaticResult>,
}

impl Model for Shapes {
    ghost use Rattle.std.specs.Prelude.{List};
    ghost use Rattle.kind_table.specs.declared.static_result.StaticResult.{StaticResult};

    ghost Value = { List StaticResult };

    ghost view = { λ shapes. shapes.all.items };
}

impl Shapes {
    /// The shape of the part with this number; `None` exactly past the last node.
    pub fn get(&self, index: usize) -> Option<StaticResult>
        ensures { result ≡ slice_get self.now index }
    {
        self.all.get(index).copied()
    }
}
