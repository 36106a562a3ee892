ghost use Rattle.std.specs.Prelude.{◌≡◌, ◌+◌, ◌≤◌, drop, length};
ghost use Rattle.mark_core.specs.Mark.{calls_here, calls_in};
ghost use Rattle.mark_core.specs.Drop.{bared, commit_of, with_part};

use crate::lists::put;
use crate::mark::{Known, Mark, Seen};
use crate::shape::{bare_shape, same_seen};
use kind_table::Asks;
use tree_core::Steps;

/// Drops the `@`s at the end of a path, whose first parts lead to this mark. The table is asked at most once for each call.
pub(crate) fn commit<K: Asks<L>, L>(
    mark: &mut Mark,
    path: &[usize],
    at: usize,
    kinds: &K,
    steps: &mut Steps<L>,
)
    requires { at ≤ length path.now }
    ensures value { mark.new ≡ commit_of (K.table kinds.now) mark.old (drop at path.now) }
    ensures counted { steps.new ≤ steps.old + calls_in mark.old }
{
    if at == path.len() {
        mark.known.uncover(kinds, steps);
        return;
    }
    let index = path[at];
    match mark.parts.get_mut(index) {
        None => {}
        Some(part) => {
            let old = part.known.seen();
            commit(part, path, at + 1, kinds, steps);
            mark.known
                .notice(index, old, part.known.seen(), kinds, steps);
        }
    }
}

impl Known {
    /// Drops the `@`s over the node.
    fn uncover<K: Asks<L>, L>(&mut self, kinds: &K, steps: &mut Steps<L>)
        ensures value { self.new ≡ bared (K.table kinds.now) self.old }
        ensures counted { steps.new ≤ steps.old + calls_here self.old.form }
    {
        let shows = self.shows.as_slice();
        self.shape = bare_shape(self.form, shows, self.shapes.as_slice(), kinds, steps);
        self.bare = true;
    }

    /// Takes note that another thing is seen of a part.
    fn notice<K: Asks<L>, L>(
        &mut self,
        index: usize,
        old: Seen,
        new: Seen,
        kinds: &K,
        steps: &mut Steps<L>,
    )
        ensures value { self.new ≡ with_part (K.table kinds.now) self.old index old new }
        ensures counted { steps.new ≤ steps.old + calls_here self.old.form }
    {
        put(&mut self.shapes, index, new.shape);
        put(&mut self.shows, index, new.shows);
        if self.bare && !same_seen(old, new) {
            let shows = self.shows.as_slice();
            self.shape = bare_shape(self.form, shows, self.shapes.as_slice(), kinds, steps);
        }
    }
}
