ghost use Rattle.std.specs.Prelude.{◌≡◌, ◌+◌, ◌*◌, ◌≤◌, ◌||◌, length};
ghost use Rattle.mark_core.specs.Mark.{ats_in, calls_in};
ghost use Rattle.mark_core.specs.Sweep.{IsSettled, IsSweep};

use crate::mark::Mark;
use crate::trial::try_drop;
use import_core::ImportRule;
use kind_table::Asks;
use own_items::Items;
use tree_core::Steps;

/// Drops `@`s at the listed places, one after the other, until none of these can go. Each place is a path of parts, by their numbers
/// from 0, from the root down. So many sweeps over the list are made as there are `@`s, and one, and in each the table is asked for each
/// place at most as often as there are calls, and so often again for each `@` that goes.
pub fn drop_what_can<K: Asks<L>, L>(
    mark: &mut Mark,
    places: &[Items<usize>],
    wanted: bool,
    rule: ImportRule,
    kinds: &K,
    steps: &mut Steps<L>,
)
    ensures settled { IsSettled rule (K.table kinds.now) wanted mark.old mark.new places.now }
    ensures counted { steps.new ≤ steps.old + ((ats_in mark.old + 1) * length places.now + ats_in mark.old) * calls_in mark.old }
{
    'sweeps: loop {
        let dropped = sweep_once(mark, places, wanted, rule, kinds, steps);
        if !dropped {
            break 'sweeps;
        }
    }
}

/// Tries the listed places in their order, and says whether an `@` was dropped.
fn sweep_once<K: Asks<L>, L>(
    mark: &mut Mark,
    places: &[Items<usize>],
    wanted: bool,
    rule: ImportRule,
    kinds: &K,
    steps: &mut Steps<L>,
) -> bool
    ensures value { IsSweep rule (K.table kinds.now) wanted mark.old mark.new places.now (length places.now) result }
    ensures counted { steps.new + ats_in mark.new * calls_in mark.old ≤ steps.old + (length places.now + ats_in mark.old) * calls_in mark.old }
{
    let mut dropped = false;
    for place in places {
        let went = try_drop(mark, place.as_slice(), wanted, rule, kinds, steps);
        dropped = either(dropped, went);
    }
    dropped
}

fn either(dropped: bool, went: bool) -> bool
    ensures { result ≡ (dropped || went) }
{
    dropped || went
}
