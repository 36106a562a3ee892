ghost use Rattle.export_marks.specs.Drops.{DropsNeverLower, TrialsSuffice, TrialsTell, TurningIsConstant};

/// A drop that import reaches, and after which the formula still comes back, never lowers a shape.
pub fn drops_never_lower()
    ensures { DropsNeverLower }
{}

/// Whether a formula that comes back still does once one value is wanted of it is a constant of the imported formula.
pub fn turning_is_constant()
    ensures { TurningIsConstant }
{}

/// Whether a formula comes back after a drop that import reaches is told by constants of the imported formula, and by the contexts on
/// the way to the `@`.
pub fn trials_tell()
    ensures { TrialsTell }
{}

/// Where none of these drops comes back, none at all does: the formula is an export.
pub fn trials_suffice()
    ensures { TrialsSuffice }
{}
