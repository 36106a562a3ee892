ghost use Rattle.std.specs.Prelude.{◌≡◌, if◌then◌else◌};
ghost use Rattle.import_marks.specs.Made.{between_told, call_told, is_bare_over, one_more, settles_as, settles_by, shown_by, spill_told, unary_told, under_told, whole_told};

use kind_table::{Shown, StaticResult};

/// How many `@`s are over a node, as far as import tells them apart.
#[derive(Clone, Copy)]
pub(crate) enum Over {
    Bare,
    One,
    More,
}

impl Over {
    pub(crate) fn is_bare(self) -> bool
        ensures { result ≡ is_bare_over self }
    {
        match self {
            Over::Bare => true,
            Over::One | Over::More => false,
        }
    }

    fn one_more(self) -> Over
        ensures { result ≡ one_more self }
    {
        match self {
            Over::Bare => Over::One,
            Over::One | Over::More => Over::More,
        }
    }

    /// Whether a node under these `@`s is its own import, by whether import puts an `@` over it, and whether its parts are.
    fn settles(self, put: bool, parts: bool) -> bool
        ensures { result ≡ settles_as self put parts }
    {
        match self {
            Over::Bare => !put && parts,
            Over::One => !put || parts,
            Over::More => false,
        }
    }
}

/// What is told of a formula.
#[derive(Clone, Copy)]
pub(crate) struct Told {
    pub(crate) over: Over,
    /// Whether its node is range-like.
    pub(crate) range_like: bool,
    /// What its node shows of itself, bare.
    pub(crate) alone: Shown,
    /// Its shape, and that after import where one value is not wanted of it, and where one is.
    pub(crate) given: StaticResult,
    pub(crate) unwanted: StaticResult,
    pub(crate) wanted: StaticResult,
    /// Whether its parts are their own imports where one value is not wanted of it, and where one is.
    pub(crate) settled_unwanted: bool,
    pub(crate) settled_wanted: bool,
}

impl Told {
    /// Whether the formula is its own import, flags aside.
    pub(crate) fn settles(self, wanted: bool) -> bool
        ensures { result ≡ settles_by self wanted }
    {
        let parts = if wanted {
            self.settled_wanted
        } else {
            self.settled_unwanted
        };
        self.over.settles(wanted && self.range_like, parts)
    }

    /// The shape of the formula after import.
    pub(crate) fn imported(self, wanted: bool) -> StaticResult
        ensures { result ≡ (if wanted then self.wanted else self.unwanted) }
    {
        if wanted { self.wanted } else { self.unwanted }
    }

    /// What the formula shows of itself.
    pub(crate) fn shown(self) -> Shown
        ensures { result ≡ shown_by self }
    {
        if self.over.is_bare() {
            self.alone
        } else {
            Shown::Nothing
        }
    }

    /// Of a bare node that has this shape as given and after import, and no part that import enters.
    pub(crate) fn whole(range_like: bool, alone: Shown, shape: StaticResult) -> Told
        ensures { result ≡ whole_told range_like alone shape }
    {
        Told {
            over: Over::Bare,
            range_like,
            alone,
            given: shape,
            unwanted: shape,
            wanted: if range_like {
                StaticResult::Scalar
            } else {
                shape
            },
            settled_unwanted: true,
            settled_wanted: true,
        }
    }

    /// Of an operator over this operand.
    pub(crate) fn unary(self) -> Told
        ensures { result ≡ unary_told self }
    {
        Told {
            over: Over::Bare,
            range_like: false,
            alone: Shown::Nothing,
            given: self.given,
            unwanted: self.unwanted,
            wanted: self.wanted,
            settled_unwanted: self.settles(false),
            settled_wanted: self.settles(true),
        }
    }

    /// Of the operator `#` over this operand.
    pub(crate) fn spill(self) -> Told
        ensures { result ≡ spill_told self }
    {
        Told {
            over: Over::Bare,
            range_like: false,
            alone: Shown::Nothing,
            given: StaticResult::Unknown,
            unwanted: StaticResult::Unknown,
            wanted: StaticResult::Unknown,
            settled_unwanted: self.settles(false),
            settled_wanted: self.settles(true),
        }
    }

    /// Of an operator between two sides.
    pub(crate) fn between(self, right: Told) -> Told
        ensures { result ≡ between_told self right }
    {
        Told {
            over: Over::Bare,
            range_like: false,
            alone: Shown::Nothing,
            given: self.given.combined(right.given),
            unwanted: self.unwanted.combined(right.unwanted),
            wanted: self.wanted.combined(right.wanted),
            settled_unwanted: self.settles(false) && right.settles(false),
            settled_wanted: self.settles(true) && right.settles(true),
        }
    }

    /// Of a call, by whether it is range-like, its shape as given and after import, and whether its arguments are their own imports.
    pub(crate) fn call(
        range_like: bool,
        given: StaticResult,
        imported: StaticResult,
        settled: bool,
    ) -> Told
        ensures { result ≡ call_told range_like given imported settled }
    {
        Told {
            over: Over::Bare,
            range_like,
            alone: Shown::Nothing,
            given,
            unwanted: imported,
            wanted: if range_like {
                StaticResult::Scalar
            } else {
                imported
            },
            settled_unwanted: settled,
            settled_wanted: settled,
        }
    }

    /// Under one more `@`.
    pub(crate) fn under(self) -> Told
        ensures { result ≡ under_told self }
    {
        Told {
            over: self.over.one_more(),
            range_like: self.range_like,
            alone: self.alone,
            given: StaticResult::Scalar,
            unwanted: StaticResult::Scalar,
            wanted: StaticResult::Scalar,
            settled_unwanted: self.settled_unwanted,
            settled_wanted: self.settled_wanted,
        }
    }
}
