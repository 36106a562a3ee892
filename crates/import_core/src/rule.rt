/// Which arguments of a call are places where one value is wanted, of those that the call takes as one value.
#[derive(Clone, Copy, Debug, PartialEq, Eq)]
pub enum ImportRule {
    /// As the ported crate has it: those whose given shape is a range, or isn't known. So `SIN(A1:A3+1)` stays as it is.
    AsCrate,
    /// Each of them, and as the crate has it for those of LET and LAMBDA. So `SIN(A1:A3+1)` becomes `SIN(@A1:A3+1)`.
    EveryScalar,
}
