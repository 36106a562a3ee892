ghost use Rattle.std.specs.Prelude.{◌≡◌, ◌↔◌, IsTrue, IfOk};

use std::alloc::Global;
use value_core::{Memory, Text};

/// A name that was defined: the name, the sheet that it is of, where it is of one alone, and the text of its formula.
#[derive(Debug, Drop)]
pub struct DefinedNameS(pub Text, pub Option<u32>, pub Text);

impl DefinedNameS {
    /// An equal name.
    pub fn try_clone(&self, alloc: Global) -> Result<DefinedNameS, Memory>
        ensures { IfOk result (λ copy. copy ≡ self.now) }
    {
        let name = self.0.try_clone(alloc)?;
        let formula = self.2.try_clone(alloc)?;
        Ok(DefinedNameS(name, self.1, formula))
    }
}

impl PartialEq for DefinedNameS {
    ghost use Rattle.own_items.specs.Sameness.{same, same-laws};
    ghost use Rattle.tree_core.specs.contracts.defined_name.DefinedNameS.{the_row};

    ghost eq = { same the_row.coded };

    ghost laws = { same-laws the_row.coded };

    /// Whether the two names are one, their sheets and formulas included.
    fn eq(&self, other: &DefinedNameS) -> bool
        ensures same_value { IsTrue result ↔ (self.now ≡ other.now) }
        ensures same_code { result ≡ same the_row.coded self.now other.now }
    {
        self.is(other)
    }
}

impl DefinedNameS {
    pub(crate) fn is(&self, other: &DefinedNameS) -> bool
        ensures { IsTrue result ↔ (self.now ≡ other.now) }
    {
        self.0.is(&other.0) && self.1 == other.1 && self.2.is(&other.2)
    }
}
