ghost use Rattle.std.specs.Prelude.{◌≡◌, ◌+◌, ◌≤◌, drop, length};
ghost use Rattle.export_marks.specs.Trial.{allows};
ghost use Rattle.mark_core.specs.Mark.{calls_here, calls_in};
ghost use Rattle.mark_core.specs.Drop.{shape_with};
ghost use Rattle.mark_core.specs.Probe.{fits_above, in_context, probe_above, probe_here, probe_of};

use crate::lists::{put, put_back};
use crate::mark::{Known, Mark, Seen};
use crate::shape::{bare_shape, same_seen};
use crate::way::wants_part;
use import_core::ImportRule;
use kind_table::{Asks, Kinds, StaticResult};
use tree_core::Steps;

/// Whether a drop fits where one value is not wanted of a node, and where it is.
#[derive(Clone, Copy, Debug)]
pub(crate) struct Fits {
    pub(crate) unwanted: bool,
    pub(crate) wanted: bool,
}

/// What a drop comes to at a node, if it fits in some context: what is seen of the node then, and where the drop fits.
#[derive(Clone, Copy, Debug)]
pub(crate) struct Probe {
    pub(crate) seen: Seen,
    pub(crate) fits: Fits,
}

impl Fits {
    /// Whether the drop fits in a context.
    pub(crate) fn in_context(self, wanted: bool) -> bool
        ensures { result ≡ in_context wanted self }
    {
        if wanted { self.wanted } else { self.unwanted }
    }
}

/// What a drop at the end of a path, whose first parts lead to this mark, comes to. The table is asked at most once for each call.
pub(crate) fn probed<K: Asks<L>, L>(
    mark: &mut Mark,
    path: &[usize],
    at: usize,
    rule: ImportRule,
    kinds: &K,
    steps: &mut Steps<L>,
) -> Option<Probe>
    requires { at ≤ length path.now }
    ensures value { result ≡ probe_of rule (K.table kinds.now) mark.old (drop at path.now) }
    ensures kept { mark.new ≡ mark.old }
    ensures counted { steps.new ≤ steps.old + calls_in mark.old }
{
    if at == path.len() {
        return probe_here(&mark.known, kinds, steps);
    }
    let index = path[at];
    let count = mark.parts.len();
    match mark.parts.get_mut(index) {
        None => None,
        Some(part) => match probed(part, path, at + 1, rule, kinds, steps) {
            None => None,
            Some(below) => {
                probe_above(
                    &mut mark.known,
                    count,
                    index,
                    &part.known,
                    below,
                    rule,
                    kinds,
                    steps,
                )
            }
        },
    }
}

fn probe_here<K: Asks<L>, L>(known: &Known, kinds: &K, steps: &mut Steps<L>) -> Option<Probe>
    ensures value { result ≡ probe_here (K.table kinds.now) known.now }
    ensures counted { steps.new ≤ steps.old + calls_here known.now.form }
{
    if !known.range_like {
        return None;
    }
    let shows = known.shows.as_slice();
    let shape = bare_shape(known.form, shows, known.shapes.as_slice(), kinds, steps);
    let fits = Fits {
        unwanted: false,
        wanted: true,
    };
    let seen = Seen {
        shape,
        shows: known.alone,
    };
    Some(Probe { seen, fits })
}

/// What a drop comes to at a node, from what it comes to at a part.
fn probe_above<K: Asks<L>, L>(
    known: &mut Known,
    count: usize,
    index: usize,
    part: &Known,
    below: Probe,
    rule: ImportRule,
    kinds: &K,
    steps: &mut Steps<L>,
) -> Option<Probe>
    ensures value { result ≡ probe_above rule (K.table kinds.now) known.old count index part.now below }
    ensures kept { known.new ≡ known.old }
    ensures counted { steps.new ≤ steps.old + calls_here known.old.form }
{
    let unwanted = fits_above(false, known, count, index, part, below, rule, kinds);
    let wanted = fits_above(true, known, count, index, part, below, rule, kinds);
    if !unwanted && !wanted {
        return None;
    }
    let shape = known.shape_with(index, part.seen(), below.seen, kinds, steps);
    let shows = known.shown();
    let seen = Seen { shape, shows };
    let fits = Fits { unwanted, wanted };
    Some(Probe { seen, fits })
}

/// Whether a drop fits at a node in a context, from what it comes to at a part.
fn fits_above<K: Kinds>(
    wanted: bool,
    known: &Known,
    count: usize,
    index: usize,
    part: &Known,
    below: Probe,
    rule: ImportRule,
    kinds: &K,
) -> bool
    ensures { result ≡ fits_above rule (K.table kinds.now) wanted known.now count index part.now below }
{
    let form = known.form;
    let now = wants_part(form, wanted, count, index, part.shape, rule, kinds);
    let next = wants_part(form, wanted, count, index, below.seen.shape, rule, kinds);
    is_allowed(now, next, part.settles) && below.fits.in_context(next)
}

/// Whether a context may change to another over a part that settles or doesn't.
fn is_allowed(now: bool, next: bool, settles: bool) -> bool
    ensures { result ≡ allows now next settles }
{
    if now { next } else { !next || settles }
}

impl Known {
    /// The shape of the node once another thing is seen of a part.
    #[tactic(auto, using(crate::proofs::Elements::set_back))]
    fn shape_with<K: Asks<L>, L>(
        &mut self,
        index: usize,
        old: Seen,
        new: Seen,
        kinds: &K,
        steps: &mut Steps<L>,
    ) -> StaticResult
        ensures value { result ≡ shape_with (K.table kinds.now) self.old index old new }
        ensures kept { self.new ≡ self.old }
        ensures counted { steps.new ≤ steps.old + calls_here self.old.form }
    {
        if !self.bare || same_seen(old, new) {
            return self.shape;
        }
        let shape = put(&mut self.shapes, index, new.shape);
        let shows = put(&mut self.shows, index, new.shows);
        let seen = self.shows.as_slice();
        let found = bare_shape(self.form, seen, self.shapes.as_slice(), kinds, steps);
        put_back(&mut self.shapes, index, shape);
        put_back(&mut self.shows, index, shows);
        found
    }
}
