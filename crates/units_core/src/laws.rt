ghost use Rattle.units_core.specs.Law.{UnitsRestOnFormats};

/// The unit of a formula rests on the number formats of the cells that it names, for a range that of its first written end, and on
/// nothing else of the book.
pub fn units_rest_on_formats()
    ensures { UnitsRestOnFormats }
{}
