ghost use Rattle.std.specs.Prelude.{◌≡◌};

use super::*;
use Function::{Index, Other, Sort, Sortby};

/// Pairs of kinds, and whether they are one.
static PAIRS: [(Function, Function, bool); 6] = [
    (Sort, Sort, true),
    (Sort, Sortby, false),
    (Other(7), Other(7), true),
    (Other(7), Other(8), false),
    (Other(0), Index, false),
    (Other(65535), Other(65535), true),
];

#[test]
fn kinds_are_one_by_value(rt: HostRuntime) {
    for &(kind, other, wanted) in &PAIRS {
        assert_eq!(rt; kind == other, wanted);
    }
}

#[test]
fn a_counter_takes_its_steps() {
    let _steps = two_steps();
}

fn two_steps() -> Steps<Plain>
    ensures { result ≡ 2 }
{
    let mut steps = Steps::new(Plain);
    steps.tick();
    steps.tick();
    steps
}
