ghost use Rattle.std.specs.Prelude.{◌≡◌, ℕ, ◌+◌};

use std::marker::Model;

/// A number without bytes.
#[derive(Drop)]
pub(crate) struct Count {
    pub(crate) ghost taken: { ℕ },
}

impl Model for Count {
    ghost use base.Fml.{ftrue};

    ghost also_owns = { λ _. ftrue };
}

impl Count {
    pub(crate) fn new() -> Count
        ensures { result.taken ≡ 0 }
    {
        Count {}
    }

    pub(crate) fn add_one(&mut self)
        ensures { self.new.taken ≡ self.old.taken + 1 }
    {}
}
