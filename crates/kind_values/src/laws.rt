ghost use Rattle.kind_values.specs.Size.{KindValuesFit};

use crate::value_rule::ValueRule;

/// The value of a call is no larger than its greatest argument, and one by one where the rule gives single values; it is never missing.
pub fn kind_values_fit(rule: ValueRule)
    ensures { KindValuesFit rule }
{
    let _rule = rule;
}
