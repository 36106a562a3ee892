ghost use Rattle.std.specs.Prelude.{◌≡◌, ℕ, Bool, List, IsTrue, IsUtf8};
ghost use Rattle.value_core.specs.declared.position.CellReferenceIndex.{CellReferenceIndex};
ghost use Rattle.reader_laws.specs.Back.{AddressReadsBack, NameReadsBack};

/// A law. The absolute address of a cell of a book, in either style, is read as that cell, whatever cell it is read in on its sheet.
pub fn addresses_read_back()
    ensures { (a1 : Bool) (sheets : List (List ℕ)) (cell : CellReferenceIndex) (row column : ℕ) → AddressReadsBack a1 sheets cell row column }
{}

/// A law. A name in quotes, each quote in it doubled, is read as that name.
pub fn quoted_names_read_back()
    ensures { (name : List ℕ) → IsUtf8 name → NameReadsBack name }
{}
