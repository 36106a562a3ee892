ghost use Rattle.json_laws.specs.ReadsBack.{WrittenFormulaReadsBack};

/// A formula whose numbers lie in the ranges of their types is read back from its JSON form, its flags included.
pub fn written_formula_reads_back()
    ensures { WrittenFormulaReadsBack }
{}
