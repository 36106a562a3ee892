ghost use Rattle.std.specs.Prelude.{ℕ, Bool, List, IsTrue};
ghost use Rattle.split_core.specs.Pieces.{AreCut, none_empty, pieces};

/// A law. The pieces of a text, with the delimiters between them as they were found, are the text; each delimiter is the first of
/// the list that matches at its place, and none matches inside a piece.
pub fn pieces_are_cut()
    ensures { (blind : Bool) (delimiters : List (List ℕ)) (text : List ℕ) → IsTrue (none_empty delimiters) → AreCut blind delimiters text (pieces blind delimiters text) }
{}
