ghost use Rattle.std.specs.Prelude.{◌≡◌, ℕ, ◌<◌, IfSome, IsTrue, drop, false, get_or, length};
ghost use Rattle.std.specs.Char.{eq_ignore_ascii_case};
ghost use Rattle.split_core.specs.Pieces.{HasFirsts, IsMatch, matched, none_empty};

use crate::matching::matched;
use value_core::Text;

/// Delimiters, none of them empty, and by each byte whether one may match where it stands.
#[derive(Drop)]
pub(crate) struct Delimiters<'a> {
    pub(crate) texts: &'a [Text],
    firsts: [bool; 256],
    ghost none_empty: { IsTrue (none_empty texts.now) },
    ghost has_firsts: { HasFirsts texts.now firsts },
}

impl<'a> Delimiters<'a> {
    pub(crate) fn new(texts: &'a [Text]) -> Delimiters<'a>
        requires { IsTrue (none_empty texts.now) }
        ensures { result.texts.now ≡ texts.now }
    {
        let firsts = firsts_of(texts);
        Delimiters { texts, firsts }
    }

    /// How long the first delimiter is that matches at a place of a text; `None` exactly where none does.
    #[inline(always)]
    pub(crate) fn matched(&self, blind: bool, text: &str, place: usize) -> Option<usize>
        requires within { place < length text.now }
        ensures value { result ≡ matched blind self.now.texts.now (drop place text.now) }
        ensures whole { IfSome result (λ n. IsMatch text.now place n) }
    {
        if self.firsts[text.as_bytes()[place] as usize] {
            matched(blind, self.texts, text, place)
        } else {
            None
        }
    }
}

/// The bytes where a delimiter may match: the first ones, in both cases of an ASCII letter.
fn firsts_of(texts: &[Text]) -> [bool; 256]
    requires { IsTrue (none_empty texts.now) }
    ensures { HasFirsts texts.now result }
{
    let mut firsts = [false; 256];
    for text in texts {
        mark(&mut firsts, text.as_str().as_bytes()[0]);
    }
    firsts
}

fn mark(firsts: &mut [bool; 256], first: u8)
    ensures { (byte : ℕ) → byte < 256 → get_or firsts.new byte false ≡ false → (get_or firsts.old byte false ≡ false) × (eq_ignore_ascii_case byte first ≡ false) }
{
    firsts[first.to_ascii_lowercase() as usize] = true;
    firsts[first.to_ascii_uppercase() as usize] = true;
}
