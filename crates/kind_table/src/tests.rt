use super::*;
use StaticResult::{Array, Range, Scalar, Unknown};
use call_core::{Function, Plain, Steps};
use std::alloc::Global;
use std::test::Fail;
use value_core::{ArrayNode, Error, Memory};

/// Functions of each row, and how calls with so many arguments take each: as one value, as a vector, or not at all.
static SIGNATURES: [&str; 102] = [
    "FALSE E",
    "AND V VVV",
    "IFS S SSSS",
    "NOT S EE",
    "EDATE SS E",
    "TIME SSS EEEE",
    "SYD SSSS EEE",
    "HYPGEOMDIST SSSSS EEEE",
    "CUMPRINC SSSSSS EEEEE",
    "SHEET S EE",
    "DOLLAR SS EEE",
    "FIXED SSS EEEE",
    "WORKDAY SSS E",
    "WORKDAYINTL SSSS EEEEE",
    "TEXTAFTER SSSSSS E",
    "TEXTBEFORE SS EEEEEEE",
    "COUPNUM SSSS EE",
    "PMT SSSSS EEEEEE",
    "RATE SSSSSS EEEEEEE",
    "DB SSSSS EEE",
    "IPMT SSSSSS EEE",
    "DURATION SSSSSS EEEE",
    "VDB SSSSSSS EEEE",
    "PRICE SSSSSSS EEEEE",
    "ODDLYIELD SSSSSSSS EEEEEE",
    "ODDFPRICE SSSSSSSSS EEEEEEE",
    "TYPE V EE",
    "PEARSON VV E",
    "QUARTILECOMPAT VS EEE",
    "TTEST VVSS EEE",
    "SERIESSUM SSSV EEEEE",
    "MIRR VSS EE",
    "XNPV SVV EEEE",
    "ZTEST VSS E",
    "COUNTIF VSV EEEE",
    "VLOOKUP VVSV EE",
    "LOOKUP VVV E",
    "MATCH VVS EEEE",
    "XLOOKUP VVVSS EE",
    "XMATCH SVSS E",
    "IRR VS EEE",
    "NETWORKDAYS SSV E",
    "NETWORKDAYSINTL SSSV EEEEE",
    "PROB VVSS EE",
    "TEXTJOIN SSVV EE",
    "NPV SVVVVVVV E",
    "FVSCHEDULE S SVE",
    "DSUM VSV VSVE",
    "SLOPE V VVE",
    "FORECAST SVV SVVE",
    "LARGE V VSE",
    "PERCENTRANKINC VSS VSSE",
    "PERMUT S SSE",
    "RANKEQ SVS SVSE",
    "SIN S EE",
    "POWER SS E",
    "MID SSS EE",
    "REPLACE SSSS EEEEE",
    "SHEETS S EE",
    "LOG S EEE",
    "FLOORMATH SSS EEEE",
    "IF SS E",
    "SUBSTITUTE SSSS EE",
    "ACCRINTM SSSSS EE",
    "ACCRINT SSSSSSSS EEEEE",
    "MUNIT S EE",
    "CELL SS EEE",
    "RANDARRAY SSSSS EEEEEE",
    "MINVERSE V EE",
    "MMULT VV E",
    "FREQUENCY V VVE",
    "MODEMULT V VV",
    "GROWTH VVVS EEEEE",
    "LOGEST VVS EEEEE",
    "SUMIF VVV E",
    "REGEXEXTRACT SSS E",
    "UNIQUE VSS EEEE",
    "TAKE VSS E",
    "FILTER VVS E",
    "INDEX VSSS E",
    "HSTACK V VVV",
    "CHOOSECOLS VSSSSSSS E",
    "TRANSPOSE V EE",
    "SEQUENCE SSSS EEEEE",
    "TEXTSPLIT SVVSSS E",
    "INDIRECT SS EEE",
    "SORT VSSS EEEEE",
    "SORTBY VVSVS EEEE VV E",
    "LET SVSVV EEEE",
    "LAMBDA SSV V",
    "MAP VVS E",
    "REDUCE VS SVS",
    "SCAN E EEEE",
    "BYROW VS E",
    "MAKEARRAY SS SSSE",
    "ROWS V EE",
    "ADDRESS SSSSS E",
    "FORMULATEXT S EE",
    "ARRAYTOTEXT VS EEE",
    "CHOOSE SVV E",
    "ROW V EE",
    "OFFSET VSSSS EE",
];

/// Calls of numbered kinds: the shapes of the arguments and the shape of the call.
static SHAPES: [(&str, &[StaticResult], StaticResult); 14] = [
    ("SUM", &[Range(4, 1)], Scalar),
    ("SIN", &[], Scalar),
    ("SIN", &[Range(1, 1)], Scalar),
    ("SIN", &[Range(4, 1)], Array(4, 1)),
    ("POWER", &[Array(2, 3), Range(4, 1)], Array(4, 3)),
    ("POWER", &[Scalar, Array(1, 2)], Array(1, 2)),
    ("POWER", &[Scalar, Unknown], Unknown),
    ("MUNIT", &[Scalar], Unknown),
    ("FREQUENCY", &[Range(4, 1), Range(2, 1), Scalar], Unknown),
    ("SUMIF", &[Range(9, 9), Range(4, 1)], Array(4, 1)),
    ("SUMIF", &[Range(9, 9)], Scalar),
    ("SUMIF", &[Range(9, 9), Scalar, Range(4, 1)], Scalar),
    ("REGEXEXTRACT", &[Scalar, Scalar, Scalar], Unknown),
    ("REGEXEXTRACT", &[Range(4, 1), Scalar], Scalar),
];

const IN_ROW: Shown = Shown::Range {
    same_row: true,
    same_column: false,
};

const IN_COLUMN: Shown = Shown::Range {
    same_row: false,
    same_column: true,
};

/// Calls of own kinds: what the arguments show, their shapes, and the shape of the call.
static OWN_SHAPES: [(Function, &[Shown], &[StaticResult], StaticResult); 16] = [
    (Function::Unique, &[Shown::Nothing], &[Scalar], Unknown),
    (Function::Areas, &[Shown::Nothing], &[Unknown], Scalar),
    (
        Function::Choose,
        &[Shown::One, Shown::Nothing],
        &[Scalar, Array(2, 3)],
        Range(2, 3),
    ),
    (
        Function::Choose,
        &[Shown::One, Shown::Nothing],
        &[Scalar, Scalar],
        Scalar,
    ),
    (Function::Row, &[], &[], Scalar),
    (Function::Row, &[IN_ROW], &[Range(1, 5)], Scalar),
    (Function::Row, &[IN_COLUMN], &[Range(5, 1)], Unknown),
    (Function::Row, &[Shown::Nothing], &[Scalar], Scalar),
    (Function::Row, &[Shown::Nothing], &[Array(1, 1)], Unknown),
    (Function::Column, &[IN_ROW], &[Range(1, 5)], Unknown),
    (Function::Column, &[IN_COLUMN], &[Range(5, 1)], Scalar),
    (Function::Column, &[Shown::Reference], &[Scalar], Scalar),
    (
        Function::Offset,
        &[Shown::Nothing, Shown::Nothing],
        &[Unknown, Unknown],
        Scalar,
    ),
    (
        Function::Offset,
        &[Shown::Nothing, Shown::One, Shown::One],
        &[Scalar, Scalar, Scalar],
        Unknown,
    ),
    (
        Function::Offset,
        &[Shown::Reference, Shown::One, Shown::One],
        &[Scalar, Scalar, Scalar],
        Scalar,
    ),
    (Function::Other(13), &[Shown::Nothing], &[Scalar], Unknown),
];

static ORDERED: [(StaticResult, StaticResult, bool); 6] = [
    (Scalar, Array(1, 1), true),
    (Array(2, 3), Range(2, 4), true),
    (Array(2, 3), Array(4, 2), false),
    (Range(2, 3), Array(2, 3), false),
    (Range(2, 3), Unknown, true),
    (Unknown, Range(9, 9), false),
];

static NUMBERS: [(u16, &str); 5] = [
    (0, "FALSE"),
    (7, "AND"),
    (13, "SUM"),
    (444, "MUNIT"),
    (457, "REGEXEXTRACT"),
];

static NO_NUMBERS: [&str; 6] = ["", "SU", "SUMS", "sum", "TAKE", "ZZ"];

fn letter(kind: Function, count: usize, index: usize) -> char {
    let signature = match kind {
        Function::Other(id) => CrateKinds.signature(id, count, index),
        _ => own_signature(kind, count, index),
    };
    match signature {
        Signature::Scalar => 'S',
        Signature::Vector => 'V',
        Signature::Error => 'E',
    }
}

#[test]
fn signatures_go_by_the_rows(rt: HostRuntime) {
    for &row in &SIGNATURES {
        let mut words = row.split_whitespace();
        let kind = function_named(words.next().unwrap_or("")).expect(&rt, row);
        for call in words {
            for (index, wanted) in call.chars().enumerate() {
                assert_eq!(rt;
                    letter(kind, call.len(), index),
                    wanted,
                    "{row}: {index} of {call}"
                );
            }
            assert_eq!(rt;
                letter(kind, call.len(), call.len()),
                'E',
                "{row}: past {call}"
            );
        }
    }
}

#[test]
fn shapes_go_by_the_rows(rt: HostRuntime) {
    let mut steps = Steps::new(Plain);
    for &(name, shapes, wanted) in &SHAPES {
        let id = CrateKinds::by_name(name).expect(&rt, "a kind");
        assert_eq!(rt;
            CrateKinds.shape(id, shapes, &mut steps),
            wanted,
            "{name} {shapes:?}"
        );
    }
    assert_eq!(rt;
        CrateKinds.shape(458, [Unknown].as_slice(), &mut steps),
        Scalar
    );
}

fn shows(shown: &[Shown]) -> Shows {
    Shows {
        count: shown.len(),
        first: shown.first().copied(),
        fourth: shown.get(3).copied(),
        fifth: shown.get(4).copied(),
    }
}

#[test]
fn shapes_of_own_kinds_go_by_the_rows(rt: HostRuntime) {
    for &(kind, shown, shapes, wanted) in &OWN_SHAPES {
        assert_eq!(rt; shown.len(), shapes.len());
        assert_eq!(rt;
            own_row(kind, shows(shown), shapes),
            wanted,
            "{kind:?} {shown:?} {shapes:?}"
        );
    }
}

#[test]
fn kinds_are_found_by_their_names(rt: HostRuntime) {
    for &(id, name) in &NUMBERS {
        assert_eq!(rt; CrateKinds::by_name(name), Some(id), "{name}");
        assert_eq!(rt; CrateKinds::name_of(id), Some(name));
        assert_eq!(rt; function_name(Function::Other(id)), Some(name));
        assert!(rt; CrateKinds.knows(id) && own_by_name(name).is_none());
    }
    for &name in &NO_NUMBERS {
        assert_eq!(rt; CrateKinds::by_name(name), None, "{name}");
    }
    assert!(rt; !CrateKinds.knows(458) && CrateKinds::name_of(458).is_none());
    assert!(rt; matches!(own_by_name("MAKEARRAY"), Some(Function::Makearray)));
    assert_eq!(rt; own_name(Function::Bycol), Some("BYCOL"));
    assert!(rt; own_by_name("MAKEARRAYS").is_none() && own_name(Function::Other(0)).is_none());
}

#[test]
fn shapes_are_ordered(rt: HostRuntime) {
    for &(shape, other, wanted) in &ORDERED {
        assert_eq!(rt; shape.at_most(other), wanted, "{shape:?} {other:?}");
    }
}

/// A kind, numbers in millionths, and the number that a call over them is.
static NUMBER_VALUES: [(&str, &[i64], i64); 9] = [
    ("SUM", &[1000000, 2000000], 3000000),
    ("MIN", &[2000000, 1000000], 1000000),
    ("MAX", &[1000000, 2000000], 2000000),
    ("COUNT", &[5000000, 5000000], 2000000),
    ("COUNTA", &[5000000], 1000000),
    ("ABS", &[-1000000], 1000000),
    ("SIGN", &[-2000000], -1000000),
    ("INT", &[-1500000], -2000000),
    ("IF", &[1000000, 2000000, 3000000], 2000000),
];

/// The same for a truth value.
static TRUTH_VALUES: [(&str, &[i64], bool); 4] = [
    ("AND", &[1000000, 0], false),
    ("OR", &[1000000, 0], true),
    ("TRUE", &[], true),
    ("FALSE", &[], false),
];

fn value_of(alloc: Global, id: u16, numbers: &[i64]) -> Result<ArrayNode, Memory> {
    let mut values = Vec::new(alloc);
    for &number in numbers {
        values.push(Value::One(ArrayNode::Number(number)))?;
    }
    match CrateKinds.value(alloc, id, values.as_slice())? {
        Value::One(element) => Ok(element),
        _ => Ok(ArrayNode::Empty),
    }
}

#[test]
fn thirteen_kinds_have_values(rt: HostRuntime) -> Result<(), Fail> {
    for &(name, numbers, wanted) in &NUMBER_VALUES {
        let id = CrateKinds::by_name(name).expect(&rt, "a kind");
        assert!(rt;
            value_of(rt.alloc(), id, numbers)? == ArrayNode::Number(wanted),
            "{name}"
        );
    }
    for &(name, numbers, wanted) in &TRUTH_VALUES {
        let id = CrateKinds::by_name(name).expect(&rt, "a kind");
        assert!(rt;
            value_of(rt.alloc(), id, numbers)? == ArrayNode::Boolean(wanted),
            "{name}"
        );
    }
    let id = CrateKinds::by_name("SIN").expect(&rt, "a kind");
    assert!(rt; value_of(rt.alloc(), id, &[0])? == ArrayNode::Error(Error::NIMPL));
    assert!(rt; value_of(rt.alloc(), 458, &[0])? == ArrayNode::Error(Error::NIMPL));
    Ok(())
}

static UNITS: [(&str, UnitClass); 21] = [
    ("SUM", UnitClass::FirstArgument),
    ("AVERAGE", UnitClass::FirstArgument),
    ("PMT", UnitClass::Currency),
    ("FV", UnitClass::Currency),
    ("NPER", UnitClass::Currency),
    ("NPV", UnitClass::Currency),
    ("SLN", UnitClass::Currency),
    ("SYD", UnitClass::Currency),
    ("DB", UnitClass::Currency),
    ("DDB", UnitClass::Currency),
    ("CUMIPMT", UnitClass::Currency),
    ("CUMPRINC", UnitClass::Currency),
    ("TBILLPRICE", UnitClass::Currency),
    ("IRR", UnitClass::Percentage),
    ("MIRR", UnitClass::Percentage),
    ("TBILLEQ", UnitClass::PercentageTwo),
    ("TBILLYIELD", UnitClass::PercentageTwo),
    ("DATE", UnitClass::Date),
    ("TODAY", UnitClass::Date),
    ("NOW", UnitClass::DateTime),
    ("MAX", UnitClass::NoUnit),
];

#[test]
fn kinds_have_units_by_their_class(rt: HostRuntime) {
    for &(name, class) in &UNITS {
        let id = CrateKinds::by_name(name).expect(&rt, "a kind");
        assert_eq!(rt; CrateKinds.unit_class(id), class, "{name}");
    }
    assert_eq!(rt; CrateKinds.unit_class(458), UnitClass::NoUnit);
}
