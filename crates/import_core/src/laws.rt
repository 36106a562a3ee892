ghost use Rattle.import_core.specs.ImportOf.{ImportIsAFunction};
ghost use Rattle.import_core.specs.Settled.{ImportSettles};

/// Each formula has an imported formula, and only one, whatever the rule and the flag.
pub fn import_is_a_function()
    ensures { ImportIsAFunction }
{}

/// Importing an imported formula changes nothing, by every lawful table.
pub fn import_settles()
    ensures { ImportSettles }
{}
