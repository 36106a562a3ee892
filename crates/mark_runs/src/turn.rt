ghost use Rattle.std.specs.Prelude.{◌≡◌, ◌+◌, ◌≤◌, drop, if◌then◌else◌, map, slice_set, sum};
ghost use Rattle.tree_core.specs.Formula.{one, tree_of};
ghost use Rattle.tree_core.specs.Tree.{forest, more, run_of};
ghost use Rattle.import_core.specs.ImportOf.{is_bare};
ghost use Rattle.mark_core.specs.Mark.{calls_here, calls_in, known_of};
ghost use Rattle.mark_runs.specs.Turned.{covered, row_of, turned, turned_part, turned_row, uncovered};

use import_core::may_be_range_like;
use kind_table::{Asks, Shown, StaticResult};
use mark_core::{Mark, bare_shape};
use own_items::Items;
use tree_core::{Node, Nodes, Steps, View};

/// Over each node that import enters, the `@` that import put goes, where they go `out`, or else comes again.
#[cycle(turn)]
#[tactic(auto, using(crate::proofs::Turns::turns))]
pub(crate) fn turn<K: Asks<L>, L>(
    mark: &mut Mark,
    formula: &Node,
    out: bool,
    kinds: &K,
    steps: &mut Steps<L>,
)
    ensures value { mark.new ≡ turned (K.table kinds.now) out mark.old (tree_of formula.now) }
    ensures counted { steps.new ≤ steps.old + calls_in mark.old }
{
    match formula.view() {
        View::Leaf(_) | View::Closed(_) => uncover(mark, kinds, steps),
        View::Unary { right, .. } => turn_over_one(mark, right, out, kinds, steps),
        View::Spill { child } => turn_over_one(mark, child, out, kinds, steps),
        View::Binary { left, right, .. } => turn_over_two(mark, left, right, out, kinds, steps),
        View::Call { args, .. } => turn_over_all(mark, args, out, kinds, steps),
        View::Intersection { automatic, child } => {
            if automatic && is_single(child) && may_be_range_like(child) {
                turn(mark, child, out, kinds, steps);
                stand_again(mark, out);
            }
        }
    }
}

/// Whether no `@` stands over the node.
fn is_single(node: &Node) -> bool
    ensures { result ≡ is_bare (run_of (tree_of node.now)) }
{
    match node.view() {
        View::Intersection { .. } => false,
        _ => true,
    }
}

/// A bare node over one part, which is turned.
#[cycle(turn)]
#[tactic(auto, using(crate::proofs::Turns::turns))]
fn turn_over_one<K: Asks<L>, L>(
    mark: &mut Mark,
    part: &Node,
    out: bool,
    kinds: &K,
    steps: &mut Steps<L>,
)
    ensures value { mark.new ≡ uncovered (K.table kinds.now) (known_of mark.old) (turned_row (K.table kinds.now) out (row_of mark.old) 0 (one (tree_of part.now))) }
    ensures counted { steps.new ≤ steps.old + calls_in mark.old }
{
    let known = &mut mark.known;
    turn_part(
        &mut known.shapes,
        &mut known.shows,
        &mut mark.parts,
        0,
        part,
        out,
        kinds,
        steps,
    );
    uncover(mark, kinds, steps);
}

/// So over two parts.
#[cycle(turn)]
#[tactic(auto, using(crate::proofs::Turns::turns))]
fn turn_over_two<K: Asks<L>, L>(
    mark: &mut Mark,
    left: &Node,
    right: &Node,
    out: bool,
    kinds: &K,
    steps: &mut Steps<L>,
)
    ensures value { mark.new ≡ uncovered (K.table kinds.now) (known_of mark.old) (turned_row (K.table kinds.now) out (row_of mark.old) 0 (more (tree_of left.now) (one (tree_of right.now)))) }
    ensures counted { steps.new ≤ steps.old + calls_in mark.old }
{
    let known = &mut mark.known;
    turn_part(
        &mut known.shapes,
        &mut known.shows,
        &mut mark.parts,
        0,
        left,
        out,
        kinds,
        steps,
    );
    turn_part(
        &mut known.shapes,
        &mut known.shows,
        &mut mark.parts,
        1,
        right,
        out,
        kinds,
        steps,
    );
    uncover(mark, kinds, steps);
}

/// So over the arguments of a call.
#[cycle(turn)]
#[tactic(auto, using(crate::proofs::Turns::turns))]
fn turn_over_all<K: Asks<L>, L>(
    mark: &mut Mark,
    args: &Nodes,
    out: bool,
    kinds: &K,
    steps: &mut Steps<L>,
)
    ensures value { mark.new ≡ uncovered (K.table kinds.now) (known_of mark.old) (turned_row (K.table kinds.now) out (row_of mark.old) 0 (forest (map tree_of args.now))) }
    ensures counted { steps.new ≤ steps.old + calls_in mark.old }
{
    let known = &mut mark.known;
    turn_all(
        &mut known.shapes,
        &mut known.shows,
        &mut mark.parts,
        args,
        out,
        kinds,
        steps,
    );
    uncover(mark, kinds, steps);
}

/// Each part of a row is turned, by its formula.
#[cycle(turn)]
fn turn_all<K: Asks<L>, L>(
    shapes: &mut Items<StaticResult>,
    shows: &mut Items<Shown>,
    marks: &mut Items<Mark>,
    args: &Nodes,
    out: bool,
    kinds: &K,
    steps: &mut Steps<L>,
)
    ensures value { record { shapes = shapes.new; shows = shows.new; marks = marks.new } ≡ turned_row (K.table kinds.now) out (record { shapes = shapes.old; shows = shows.old; marks = marks.old }) 0 (forest (map tree_of args.now)) }
    ensures counted { steps.new ≤ steps.old + sum (map calls_in marks.old) }
{
    for (index, arg) in args.as_slice().iter().enumerate() {
        turn_part(shapes, shows, marks, index, arg, out, kinds, steps);
    }
}

/// The part of a row at an index is turned, if it is there.
#[cycle(turn)]
fn turn_part<K: Asks<L>, L>(
    shapes: &mut Items<StaticResult>,
    shows: &mut Items<Shown>,
    marks: &mut Items<Mark>,
    index: usize,
    part: &Node,
    out: bool,
    kinds: &K,
    steps: &mut Steps<L>,
)
    ensures value { record { shapes = shapes.new; shows = shows.new; marks = marks.new } ≡ turned_part (K.table kinds.now) out (record { shapes = shapes.old; shows = shows.old; marks = marks.old }) index (tree_of part.now) }
    ensures counted { steps.new + sum (map calls_in (drop (index + 1) marks.new)) ≤ steps.old + sum (map calls_in (drop index marks.old)) }
{
    match marks.get_mut(index) {
        None => {}
        Some(mark) => {
            turn(mark, part, out, kinds, steps);
            put(shapes, index, mark.known.shape);
            put(shows, index, mark.known.shown());
        }
    }
}

/// What is known of a node without an `@` over it follows from what is known of its parts.
fn uncover<K: Asks<L>, L>(mark: &mut Mark, kinds: &K, steps: &mut Steps<L>)
    ensures value { mark.new ≡ uncovered (K.table kinds.now) (known_of mark.old) (row_of mark.old) }
    ensures counted { steps.new ≤ steps.old + calls_here (known_of mark.old).form }
{
    let known = &mut mark.known;
    let shows = known.shows.as_slice();
    known.shape = bare_shape(known.form, shows, known.shapes.as_slice(), kinds, steps);
    known.bare = true;
}

/// An `@` stands over a node, unless it goes.
fn stand_again(mark: &mut Mark, out: bool)
    ensures { mark.new ≡ (if out then mark.old else covered mark.old) }
{
    if !out {
        mark.known.bare = false;
        mark.known.shape = StaticResult::Scalar;
    }
}

/// Puts a value in place of another, if there is one.
fn put<T: Copy>(items: &mut Items<T>, index: usize, value: T)
    ensures { items.new ≡ slice_set items.old index value }
{
    if let Some(item) = items.get_mut(index) {
        *item = value;
    }
}
