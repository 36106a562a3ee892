ghost use Rattle.std.specs.Prelude.{◌≡◌, ◌↔◌, ◌++◌, [], ◌∷◌, IsTrue, IfOk, OnOk, OnErr, IfErr, length, option_map, slice_get};

use crate::memory::Memory;
use crate::text::Text;
use std::alloc::Global;
use std::marker::Model;

/// A list of texts.
#[derive(Debug, Drop)]
pub struct Texts {
    texts: Vec<Text>,
}

impl Model for Texts {
    ghost use Rattle.std.specs.Prelude.{ℕ, List};

    ghost Value = { List (List ℕ) };

    ghost view = { λ list. list.texts.items };
}

impl Texts {
    /// No text. It takes no memory.
    pub fn new(alloc: Global) -> Texts
        ensures { result ≡ [] }
    {
        Texts {
            texts: Vec::new(alloc),
        }
    }

    /// Puts a text behind the others. For want of memory it is handed back, and the list stays.
    pub fn push(&mut self, text: Text) -> Result<(), Text>
        ensures done { OnOk result (self.new ≡ self.old ++ text ∷ []) }
        ensures handed_back { IfErr result (λ back. back ≡ text) }
        ensures kept { OnErr result (self.new ≡ self.old) }
    {
        match self.texts.push(text) {
            Ok(()) => Ok(()),
            Err(failed) => Err(failed.value),
        }
    }

    /// How many texts there are.
    pub fn len(&self) -> usize
        ensures { result ≡ length self.now }
    {
        self.texts.len()
    }

    /// A text by its number, from 0; `None` exactly past the last one.
    pub fn get(&self, index: usize) -> Option<&Text>
        ensures { option_map (λ text. text.now) result ≡ slice_get self.now index }
    {
        self.texts.get(index)
    }

    /// An equal list.
    pub fn try_clone(&self, alloc: Global) -> Result<Texts, Memory>
        ensures { IfOk result (λ copy. copy ≡ self.now) }
    {
        let texts = clone_texts(alloc, self.texts.as_slice())?;
        Ok(Texts { texts })
    }
}

fn clone_texts(alloc: Global, texts: &[Text]) -> Result<Vec<Text>, Memory>
    ensures { IfOk result (λ copy. copy.items ≡ texts.now) }
{
    let mut copy = Vec::new(alloc);
    for (index, text) in texts.iter().enumerate() {
        let text = text.try_clone(alloc)?;
        copy.push(text)?;
    }
    Ok(copy)
}

impl PartialEq for Texts {
    ghost use Rattle.std.specs.Coded.{coded_list, coded_ℕ};
    ghost use Rattle.own_items.specs.Sameness.{same, same-laws};

    ghost eq = { same (coded_list (coded_list coded_ℕ)) };

    ghost laws = { same-laws (coded_list (coded_list coded_ℕ)) };

    /// Whether the two lists have the same texts.
    fn eq(&self, other: &Texts) -> bool
        ensures same_value { IsTrue result ↔ (self.now ≡ other.now) }
        ensures same_code { result ≡ same (coded_list (coded_list coded_ℕ)) self.now other.now }
    {
        self.is(other)
    }
}

impl Texts {
    /// Whether the two lists have the same texts: what `==` tells, with one clause.
    pub fn is(&self, other: &Texts) -> bool
        ensures { IsTrue result ↔ (self.now ≡ other.now) }
    {
        are_texts(self.texts.as_slice(), other.texts.as_slice())
    }
}

fn are_texts(texts: &[Text], others: &[Text]) -> bool
    ensures { IsTrue result ↔ (texts.now ≡ others.now) }
{
    if texts.len() != others.len() {
        return false;
    }
    for (index, text) in texts.iter().enumerate() {
        if !text.is(&others[index]) {
            return false;
        }
    }
    true
}
