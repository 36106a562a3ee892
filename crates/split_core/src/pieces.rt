ghost use Rattle.std.specs.Prelude.{◌≡◌, ◌≤◌, ◌-◌, ◌++◌, [], ◌∷◌, IfOk, IsTrue, OnOk, drop, length, map, take};
ghost use Rattle.std.specs.List.{filter};
ghost use Rattle.std.specs.Str.{IsCharBoundary};
ghost use Rattle.split_core.specs.Split.{kept_pieces, stays};

use crate::delimiters::Delimiters;
use std::alloc::Global;
use value_core::Memory;

/// How pieces are found, and which of them stay.
#[derive(Clone, Copy)]
pub(crate) struct Manner {
    pub(crate) ignore_empty: bool,
    pub(crate) blind: bool,
}

/// The pieces of a text between delimiters, without the empty ones where these are to be left out.
pub(crate) fn kept_pieces<'a>(
    alloc: Global,
    manner: Manner,
    delimiters: &Delimiters<'_>,
    text: &'a str,
) -> Result<Vec<&'a str>, Memory>
    ensures { IfOk result (λ found. map (λ piece. piece.now) found.items ≡ kept_pieces manner.ignore_empty manner.blind delimiters.now.texts.now text.now) }
{
    if delimiters.texts.is_empty() {
        whole(alloc, manner, text)
    } else {
        cut(alloc, manner, delimiters, text)
    }
}

/// The one piece of a text where nothing cuts it.
#[tactic(auto, using(crate::proofs::Cutting::uncut))]
fn whole<'a>(alloc: Global, manner: Manner, text: &'a str) -> Result<Vec<&'a str>, Memory>
    ensures { IfOk result (λ found. map (λ piece. piece.now) found.items ≡ kept_pieces manner.ignore_empty manner.blind [] text.now) }
{
    let mut found = Vec::new(alloc);
    if stays(manner.ignore_empty, text) {
        found.push(text)?;
    }
    Ok(found)
}

#[tactic(auto, using(crate::proofs::Cutting::cutting))]
fn cut<'a>(
    alloc: Global,
    manner: Manner,
    delimiters: &Delimiters<'_>,
    text: &'a str,
) -> Result<Vec<&'a str>, Memory>
    ensures { IfOk result (λ found. map (λ piece. piece.now) found.items ≡ kept_pieces manner.ignore_empty manner.blind delimiters.now.texts.now text.now) }
{
    let mut found = Vec::new(alloc);
    let mut start = 0;
    for place in 0..text.len() {
        if place < start {
            continue;
        }
        if let Some(count) = delimiters.matched(manner.blind, text, place) {
            push_piece(&mut found, manner.ignore_empty, text, start, place)?;
            start = place + count;
        }
    }
    push_piece(&mut found, manner.ignore_empty, text, start, text.len())?;
    Ok(found)
}

/// Puts the piece between two places behind the others, if it stays.
fn push_piece<'a>(
    found: &mut Vec<&'a str>,
    ignore_empty: bool,
    text: &'a str,
    start: usize,
    end: usize,
) -> Result<(), Memory>
    requires order { start ≤ end }
    requires start { IsCharBoundary text.now start }
    requires end { IsCharBoundary text.now end }
    ensures { OnOk result (map (λ piece. piece.now) found.new.items ≡ map (λ piece. piece.now) found.old.items ++ filter (stays ignore_empty) (take (end - start) (drop start text.now) ∷ [])) }
{
    let piece = &text[start..end];
    if stays(ignore_empty, piece) {
        found.push(piece)?;
    }
    Ok(())
}

fn stays(ignore_empty: bool, piece: &str) -> bool
    ensures { result ≡ stays ignore_empty piece.now }
{
    !(ignore_empty && piece.is_empty())
}
