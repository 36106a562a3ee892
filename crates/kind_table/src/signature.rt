/// How a call takes one of its arguments.
#[derive(Clone, Copy, Debug, PartialEq)]
pub enum Signature {
    /// One value is wanted there.
    Scalar,
    /// A whole range or array is taken.
    Vector,
    /// The call takes no such argument.
    Error,
}
