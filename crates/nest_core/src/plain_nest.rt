ghost use Rattle.std.specs.Prelude.{IsTrue};
ghost use Rattle.nest_core.specs.Shown.{is_sound};

use crate::nest::Nest;

/// A plain nest that is an array: it has at least one row and one column, and each of its elements is found with at most one
/// cell read. It holds the elements of its array literals, and of its ranges the ends alone.
#[derive(Debug, Drop)]
pub struct PlainNest {
    pub(crate) held: Nest,
    ghost sound: { IsTrue (is_sound held) },
}
