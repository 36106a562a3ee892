//! Lists of texts.
ghost use Rattle.std.specs.Prelude.{◌≡◌, ◌++◌, [], ◌∷◌, OnOk, IfErr};
ghost use Rattle.serde_json.specs.Find.{as_str};
ghost use Rattle.serde_json.specs.View.{view};
ghost use Rattle.value_json.specs.Piece.{Writes, data_tokens};
ghost use Rattle.value_json.specs.Reading.{Gives};
ghost use Rattle.value_json.specs.Texts.{texts_in, texts_data};

use crate::error::FormError;
use crate::field::read_array;
use crate::piece::end;
use json::Writer;
use serde_json::Value;
use std::alloc::Global;
use value_core::{Memory, Text, Texts};

fn read_element(alloc: Global, value: &Value) -> Result<Text, FormError>
    ensures { Gives result (as_str (view value.now)) }
{
    match value.as_str() {
        Some(text) => Ok(Text::from_text(alloc, text)?),
        None => Err(FormError::NotOfForm),
    }
}

fn push_text(texts: &mut Texts, text: Text) -> Result<(), FormError>
    ensures done { OnOk result (texts.new ≡ texts.old ++ text ∷ []) }
    ensures memory { IfErr result (λ error. error ≡ FormError.Memory) }
{
    match texts.push(text) {
        Ok(()) => Ok(()),
        Err(_text) => Err(FormError::Memory),
    }
}

/// The texts of an array of texts.
#[tactic(auto, unfolding(crate::specs::Texts::texts_in))]
pub fn read_texts(alloc: Global, value: &Value) -> Result<Texts, FormError>
    ensures { Gives result (texts_in (view value.now)) }
{
    let mut texts = Texts::new(alloc);
    for item in read_array(value)? {
        let text = read_element(alloc, item)?;
        push_text(&mut texts, text)?;
    }
    Ok(texts)
}

/// Writes an array of texts.
#[inline(never)]
pub fn write_texts(writer: &mut Writer, texts: &Texts) -> Result<(), Memory>
    ensures { Writes result writer.old writer.new (data_tokens (texts_data texts.now)) }
{
    writer.begin_array()?;
    for index in 0..texts.len() {
        match texts.get(index) {
            Some(text) => writer.string(text.as_str())?,
            None => unreachable!(),
        }
    }
    end(writer)?;
    Ok(())
}
