use super::*;
use StaticResult::{Array, Range, Scalar, Unknown};
use call_core::Plain;

/// The shapes of a call's arguments, and its own.
static PAIRS: [(&[StaticResult], StaticResult); 3] = [
    (&[Range(3, 1), Scalar, Array(1, 2)], Unknown),
    (&[Range(1, 1), Unknown], Scalar),
    (&[Unknown, Unknown], Unknown),
];

#[test]
fn two_large_arguments_of_a_pair_are_unknown(rt: HostRuntime) {
    let mut steps = Steps::new(Plain);
    for &(shapes, wanted) in &PAIRS {
        assert_eq!(rt;
            PairKinds.shape(7, shapes, &mut steps),
            wanted,
            "{shapes:?}"
        );
    }
    assert!(rt; PairKinds.knows(0) && !PairKinds.knows(1));
    assert_eq!(rt; PairKinds.signature(7, 2, 1), Signature::Scalar);
    assert_eq!(rt; PairKinds.signature(0, 2, 2), Signature::Error);
}
