ghost use Rattle.std.specs.Prelude.{◌≡◌, ◌+◌, ◌*◌, ◌≤◌, ◌<◌, drop, if◌then◌else◌};
ghost use Rattle.mark_core.specs.Mark.{ats_in, calls_in};
ghost use Rattle.mark_core.specs.Drop.{can_drop, commit_of};

use crate::commit::commit;
use crate::mark::Mark;
use crate::probe::probed;
use crate::way::is_way;
use import_core::ImportRule;
use kind_table::Asks;
use tree_core::Steps;

/// Drops the `@`s at the end of a path if there are some that can go, and says whether it did. The table is asked at most once for
/// each call to see that they can, and once more where they do.
pub(crate) fn try_drop<K: Asks<L>, L>(
    mark: &mut Mark,
    path: &[usize],
    wanted: bool,
    rule: ImportRule,
    kinds: &K,
    steps: &mut Steps<L>,
) -> bool
    ensures value { result ≡ can_drop rule (K.table kinds.now) wanted mark.old path.now }
    ensures mark { mark.new ≡ (if result then commit_of (K.table kinds.now) mark.old path.now else mark.old) }
    ensures counted { steps.new ≤ steps.old + (if result then 2 else 1) * calls_in mark.old }
{
    let goes = can_go(mark, path, wanted, rule, kinds, steps);
    if goes {
        commit(mark, path, 0, kinds, steps);
    }
    goes
}

fn can_go<K: Asks<L>, L>(
    mark: &mut Mark,
    path: &[usize],
    wanted: bool,
    rule: ImportRule,
    kinds: &K,
    steps: &mut Steps<L>,
) -> bool
    ensures value { result ≡ can_drop rule (K.table kinds.now) wanted mark.old path.now }
    ensures kept { mark.new ≡ mark.old }
    ensures counted { steps.new ≤ steps.old + calls_in mark.old }
{
    if !is_way(mark, path, 0, wanted, rule, kinds) {
        return false;
    }
    match probed(mark, path, 0, rule, kinds, steps) {
        None => false,
        Some(found) => found.fits.in_context(wanted),
    }
}
