use crate::pattern::Pattern;
use crate::shape_pattern::ShapePattern;
use crate::unit_class::UnitClass;
use kind_values::ValueRule;

/// What a table says of one kind.
#[derive(Clone, Copy, Debug)]
pub struct Kind {
    pub signature: Pattern,
    pub shape: ShapePattern,
    pub value: ValueRule,
    pub unit_class: UnitClass,
}
