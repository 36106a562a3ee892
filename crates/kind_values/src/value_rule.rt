/// By which rule the call of a kind has its value.
#[derive(Clone, Copy, Debug)]
pub enum ValueRule {
    Sum,
    Min,
    Max,
    Count,
    Counta,
    And,
    Or,
    True,
    False,
    Abs,
    Sign,
    Int,
    If,
    /// That of the kinds that have no value here: `#NIMPL!`.
    NotImplemented,
}
