ghost use Rattle.value_json.specs.ReadsBack.{ValuesReadBack};

/// A value whose number is in the range of its type is read back from its JSON form, and so are rows of such values.
pub fn values_read_back()
    ensures { ValuesReadBack }
{}
