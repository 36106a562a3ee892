ghost use Rattle.std.specs.Prelude.{◌≡◌, ◌<◌, IfOk, length};
ghost use Rattle.key_core.specs.Kept.{first_positions, kept_positions, only_positions};
ghost use Rattle.key_core.specs.Counted.{IsCounted, times};

use crate::row::RowKey;
use std::alloc::Global;
use std::collections::{HashMap, HashSet};
use value_core::Memory;

/// The positions, from 0 and in order, that are kept where each key is to come once: the first of each key, or with
/// `exactly_once` those whose key no other position has. It takes time in proportion to the keys.
pub fn kept_positions(
    alloc: Global,
    keys: &[RowKey],
    exactly_once: bool,
) -> Result<Vec<usize>, Memory>
    ensures { IfOk result (λ kept. kept.items ≡ kept_positions exactly_once keys.now) }
{
    if exactly_once {
        only_positions(alloc, keys)
    } else {
        first_positions(alloc, keys)
    }
}

fn first_positions(alloc: Global, keys: &[RowKey]) -> Result<Vec<usize>, Memory>
    ensures { IfOk result (λ kept. kept.items ≡ first_positions keys.now) }
{
    let mut seen: HashSet<&RowKey> = HashSet::new(alloc);
    let mut kept = Vec::new(alloc);
    for (index, key) in keys.iter().enumerate() {
        if seen.insert(key)? {
            kept.push(index)?;
        }
    }
    Ok(kept)
}

fn only_positions(alloc: Global, keys: &[RowKey]) -> Result<Vec<usize>, Memory>
    ensures { IfOk result (λ kept. kept.items ≡ only_positions keys.now) }
{
    let counts = counted(alloc, keys)?;
    let mut kept = Vec::new(alloc);
    for (index, key) in keys.iter().enumerate() {
        if times(&counts, key) == 1 {
            kept.push(index)?;
        }
    }
    Ok(kept)
}

/// How often each key comes.
fn counted<'a>(alloc: Global, keys: &'a [RowKey]) -> Result<HashMap<&'a RowKey, usize>, Memory>
    ensures { IfOk result (λ counts. IsCounted counts keys.now) }
{
    let mut counts: HashMap<&'a RowKey, usize> = HashMap::new(alloc);
    for (index, key) in keys.iter().enumerate() {
        let before = times(&counts, key);
        counts.insert(key, before + 1)?;
    }
    Ok(counts)
}

/// How often a key was counted.
fn times(counts: &HashMap<&RowKey, usize>, key: &RowKey) -> usize
    ensures { result ≡ times counts.now key.now }
{
    match counts.get(&key) {
        Some(count) => *count,
        None => 0,
    }
}
