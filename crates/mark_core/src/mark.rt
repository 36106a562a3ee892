use kind_table::{Shown, StaticResult};
use own_items::Items;
use tree_core::Function;

/// How a bare node has its shape from those of its parts.
#[derive(Clone, Copy, Debug)]
pub enum Form {
    /// A node that always has this shape, and no part that import enters.
    Whole(StaticResult),
    /// An operator over its one or two sides.
    Passing,
    /// The operator `#`.
    Spill,
    /// A call of a function.
    Call(Function),
}

/// What is known of a node.
#[derive(Debug, Drop)]
pub struct Known {
    /// How its shape comes of those of its parts.
    pub form: Form,
    /// Whether no `@` stands over it.
    pub bare: bool,
    /// Whether it may stand for many values, in the imported formula.
    pub range_like: bool,
    /// Whether the imported formula that begins here is its own import where one value is wanted.
    pub settles: bool,
    /// What it shows of itself where no `@` stands over it.
    pub alone: Shown,
    /// Its shape, with the `@`s that stand over it.
    pub shape: StaticResult,
    /// The shapes of its parts, in their order.
    pub shapes: Items<StaticResult>,
    /// What its parts show of themselves, in their order.
    pub shows: Items<Shown>,
}

/// What is known of a formula: of its root, and of its parts.
#[derive(Debug, Drop)]
pub struct Mark {
    pub known: Known,
    pub parts: Items<Mark>,
}

/// What is seen of a node from above.
#[derive(Clone, Copy, Debug)]
pub(crate) struct Seen {
    pub(crate) shape: StaticResult,
    pub(crate) shows: Shown,
}

impl Known {
    ghost use Rattle.std.specs.Prelude.{◌≡◌};
    ghost use Rattle.mark_core.specs.Mark.{face, seen};

    /// What is seen of the node from above.
    pub(crate) fn seen(&self) -> Seen
        ensures { result ≡ seen self.now }
    {
        Seen {
            shape: self.shape,
            shows: self.shown(),
        }
    }

    /// What the node shows of itself: nothing under an `@`.
    pub fn shown(&self) -> Shown
        ensures { result ≡ face self.now }
    {
        if self.bare {
            self.alone
        } else {
            Shown::Nothing
        }
    }
}
