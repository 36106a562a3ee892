ghost use Rattle.std.specs.Prelude.{◌≡◌, [], ◌∷◌, ◌++◌, IfOk, OnOk};
ghost use Rattle.tree_core.specs.View.{closed_in, leaf_in};
ghost use Rattle.import_marks.specs.Made.{between_made, closed_made, leaf_made, mark_by, no_parts, shown_by, spill_made, unary_made, under_made};

use crate::told::Told;
use import_core::{is_range_like_leaf, is_range_operator};
use kind_table::{Shown, StaticResult};
use mark_core::{Form, Known, Mark};
use own_items::Items;
use shape_core::{leaf_shape, shown_leaf};
use std::alloc::Global;
use tree_core::{Closed, Leaf, Memory};

/// The marks of the parts of a node, and what is known of these.
#[derive(Drop)]
pub(crate) struct Parts {
    pub(crate) shapes: Items<StaticResult>,
    pub(crate) shows: Items<Shown>,
    pub(crate) marks: Items<Mark>,
}

/// What is made of a formula.
#[derive(Drop)]
pub(crate) struct Made {
    pub(crate) told: Told,
    pub(crate) form: Form,
    pub(crate) parts: Parts,
}

impl Parts {
    pub(crate) fn new(alloc: Global) -> Parts
        ensures { result ≡ no_parts }
    {
        Parts {
            shapes: Items::new(alloc),
            shows: Items::new(alloc),
            marks: Items::new(alloc),
        }
    }

    /// Adds a part behind those that are there.
    pub(crate) fn add(&mut self, part: Made) -> Result<(), Memory>
        ensures { OnOk result (self.new ≡ record { shapes = self.old.shapes ++ part.told.given ∷ []; shows = self.old.shows ++ shown_by part.told ∷ []; marks = self.old.marks ++ mark_by part ∷ [] }) }
    {
        self.shapes.add(part.told.given)?;
        self.shows.add(part.told.shown())?;
        self.marks.add(part.mark())?;
        Ok(())
    }
}

impl Made {
    /// A node without children.
    pub(crate) fn leaf(alloc: Global, leaf: Leaf) -> Made
        ensures { result ≡ leaf_made (leaf_in leaf.entry) }
    {
        let shape = leaf_shape(leaf);
        Made {
            told: Told::whole(is_range_like_leaf(leaf), shown_leaf(leaf), shape),
            form: Form::Whole(shape),
            parts: Parts::new(alloc),
        }
    }

    /// A node whose children import doesn't enter.
    pub(crate) fn closed(alloc: Global, closed: Closed) -> Made
        ensures { result ≡ closed_made (closed_in closed.entry) }
    {
        let like = is_range_operator(closed);
        Made {
            told: Told::whole(like, Shown::Nothing, StaticResult::Unknown),
            form: Form::Whole(StaticResult::Unknown),
            parts: Parts::new(alloc),
        }
    }

    /// The mark of the formula.
    pub(crate) fn mark(self) -> Mark
        ensures { result ≡ mark_by self }
    {
        let Made { told, form, parts } = self;
        let Parts {
            shapes,
            shows,
            marks,
        } = parts;
        let known = Known {
            form,
            bare: told.over.is_bare(),
            range_like: told.range_like,
            settles: told.settles(true),
            alone: told.alone,
            shape: told.given,
            shapes,
            shows,
        };
        Mark {
            known,
            parts: marks,
        }
    }

    /// An operator over this operand.
    pub(crate) fn unary(self, alloc: Global) -> Result<Made, Memory>
        ensures { IfOk result (λ made. made ≡ unary_made self) }
    {
        let told = self.told.unary();
        let mut parts = Parts::new(alloc);
        parts.add(self)?;
        Ok(Made {
            told,
            form: Form::Passing,
            parts,
        })
    }

    /// The operator `#` over this operand.
    pub(crate) fn spill(self, alloc: Global) -> Result<Made, Memory>
        ensures { IfOk result (λ made. made ≡ spill_made self) }
    {
        let told = self.told.spill();
        let mut parts = Parts::new(alloc);
        parts.add(self)?;
        Ok(Made {
            told,
            form: Form::Spill,
            parts,
        })
    }

    /// An operator between two sides.
    pub(crate) fn between(self, alloc: Global, right: Made) -> Result<Made, Memory>
        ensures { IfOk result (λ made. made ≡ between_made self right) }
    {
        let told = self.told.between(right.told);
        let mut parts = Parts::new(alloc);
        parts.add(self)?;
        parts.add(right)?;
        Ok(Made {
            told,
            form: Form::Passing,
            parts,
        })
    }

    /// Under one more `@`.
    pub(crate) fn under(self) -> Made
        ensures { result ≡ under_made self }
    {
        let Made { told, form, parts } = self;
        Made {
            told: told.under(),
            form,
            parts,
        }
    }
}
