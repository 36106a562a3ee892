ghost use Rattle.number_core.specs.NumberText.{NumberTextsReadBack};

/// What is written of a number is read as that number.
pub fn number_texts_read_back(number: i64)
    ensures { NumberTextsReadBack number }
{
    let _number = number;
}
