ghost use Rattle.reference_fits.specs.AnswersFit.{ReferencesFit};

/// What INDEX, OFFSET, CHOOSE, ROW, ROWS, COLUMN, COLUMNS, AREAS and FORMULATEXT answer is no larger than the static shape of their
/// call says, where the values of the arguments fit their shapes and the arguments are what they show of themselves.
pub fn reference_answers_fit()
    ensures { ReferencesFit }
{}
