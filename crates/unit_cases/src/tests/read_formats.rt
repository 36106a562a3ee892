use serde_json::Value;
use std::alloc::Global;
use std::test::Fail;
use unit_json::read_formats;
use units_core::{FirstPart, Formats, MapFormats};
use value_json::FormError;

const PERCENTAGE: FirstPart = FirstPart::Number {
    percent: 1,
    use_thousands: false,
    precision: 2,
};

const LEAST: FirstPart = FirstPart::Number {
    percent: 0,
    use_thousands: true,
    precision: -2147483648,
};

const GREATEST: FirstPart = FirstPart::Number {
    percent: 4294967295,
    use_thousands: false,
    precision: 2147483647,
};

/// Objects, a number format, and what is known of it by the object.
static GOOD: [(&str, &str, FirstPart); 24] = [
    ("{}", "0", FirstPart::None),
    ("{}", "", FirstPart::None),
    (r#"{"m/d":"date"}"#, "m/d", FirstPart::Date),
    (r#"{"m/d":"general"}"#, "m/d", FirstPart::General),
    (r#"{"m/d":"error"}"#, "m/d", FirstPart::Error),
    (r#"{"m/d":"date"}"#, "m", FirstPart::None),
    (r#"{"m/d":"date"}"#, "M/D", FirstPart::None),
    (r#"{"":"date"}"#, "", FirstPart::Date),
    (r#"{"0\u0025":"error"}"#, "0%", FirstPart::Error),
    (r#"{"0 €":"general"}"#, "0 €", FirstPart::General),
    (r#"{"a":"\u0064ate"}"#, "a", FirstPart::Date),
    (
        r#"{"a":"date","b":"general","c":"error"}"#,
        "a",
        FirstPart::Date,
    ),
    (
        r#"{"a":"date","b":"general","c":"error"}"#,
        "b",
        FirstPart::General,
    ),
    (
        r#"{"a":"date","b":"general","c":"error"}"#,
        "c",
        FirstPart::Error,
    ),
    (
        r#"{"a":{"kind":"number","percent":1,"precision":2,"use_thousands":false}}"#,
        "a",
        PERCENTAGE,
    ),
    (
        r#" { "a" : { "use_thousands" : false , "precision" : 2 , "percent" : 1 , "kind" : "number" } } "#,
        "a",
        PERCENTAGE,
    ),
    (
        r#"{"a":{"kind":"number","percent":0,"precision":-2147483648,"use_thousands":true}}"#,
        "a",
        LEAST,
    ),
    (
        r#"{"a":{"kind":"number","percent":4294967295,"precision":2147483647,"use_thousands":false}}"#,
        "a",
        GREATEST,
    ),
    // of equal keys the last one counts, whatever the others say
    (r#"{"a":"date","a":"general"}"#, "a", FirstPart::General),
    (
        r#"{"a":"general","b":"error","\u0061":"date"}"#,
        "a",
        FirstPart::Date,
    ),
    (r#"{"a":7,"a":"date"}"#, "a", FirstPart::Date),
    (
        r#"{"a":"dates","a":{"kind":"number","percent":1,"precision":2,"use_thousands":false}}"#,
        "a",
        PERCENTAGE,
    ),
    (
        r#"{"a":{"kind":"date","percent":"1","precision":2,"use_thousands":false,"percent":1,"kind":"number"}}"#,
        "a",
        PERCENTAGE,
    ),
    (
        r#"{"a":{"kind":"number","precision":1.5,"percent":1,"precision":2,"use_thousands":0,"use_thousands":false}}"#,
        "a",
        PERCENTAGE,
    ),
];

#[test]
fn formats_are_read_from_an_object(rt: HostRuntime) -> Result<(), Fail> {
    for &(text, num_fmt, part) in &GOOD {
        assert_eq!(rt; part_in(rt.alloc(), text, num_fmt)?, part, "{text}");
    }
    Ok(())
}

/// What is known of a number format by a JSON text.
fn part_in(alloc: Global, text: &str, num_fmt: &str) -> Result<FirstPart, Fail> {
    let formats = formats_in(alloc, text)?;
    Ok(formats.first_part(num_fmt))
}

/// The formats of a JSON text.
pub(super) fn formats_in(alloc: Global, text: &str) -> Result<MapFormats, Fail> {
    let value = Value::from_str(alloc, text)?;
    let formats = read_formats(alloc, &value)?;
    drop(value);
    Ok(formats)
}

/// Why no formats are read from a JSON text.
fn refusal(alloc: Global, text: &str) -> Result<Option<FormError>, Fail> {
    let value = Value::from_str(alloc, text)?;
    let refused = read_formats(alloc, &value).err();
    drop(value);
    Ok(refused)
}

/// Values that are no objects of formats.
static OTHERS: [&str; 20] = [
    "null",
    "true",
    "1",
    "[]",
    r#""date""#,
    r#"[{"a":"date"}]"#,
    r#"{"a":null}"#,
    r#"{"a":true}"#,
    r#"{"a":0}"#,
    r#"{"a":[]}"#,
    r#"{"a":["date"]}"#,
    r#"{"a":{}}"#,
    r#"{"a":""}"#,
    r#"{"a":"Date"}"#,
    r#"{"a":"dates"}"#,
    r#"{"a":"number"}"#,
    r#"{"a":"none"}"#,
    r#"{"a":"date","b":null}"#,
    r#"{"a":null,"b":"date"}"#,
    r#"{"a":"date","a":7}"#,
];

/// The members of objects that say nothing of a format.
static OTHER_MEMBERS: [&str; 38] = [
    // a key is missing
    r#""percent":1,"precision":2,"use_thousands":false"#,
    r#""kind":"number","precision":2,"use_thousands":false"#,
    r#""kind":"number","percent":1,"use_thousands":false"#,
    r#""kind":"number","percent":1,"precision":2"#,
    // a key too many
    r#""kind":"number","percent":1,"precision":2,"use_thousands":false,"more":0"#,
    r#""kind":"number","percent":1,"precision":2,"use_thousands":false,"Kind":"number""#,
    r#""kind":"number","percent":1,"precision":2,"use_thousands":false,"":null"#,
    // another kind
    r#""kind":"date","percent":1,"precision":2,"use_thousands":false"#,
    r#""kind":"Number","percent":1,"precision":2,"use_thousands":false"#,
    r#""kind":"","percent":1,"precision":2,"use_thousands":false"#,
    r#""kind":null,"percent":1,"precision":2,"use_thousands":false"#,
    r#""kind":1,"percent":1,"precision":2,"use_thousands":false"#,
    r#""kind":["number"],"percent":1,"precision":2,"use_thousands":false"#,
    r#""kind":"number","kind":"date","percent":1,"precision":2,"use_thousands":false"#,
    // another count of percent signs
    r#""kind":"number","percent":-1,"precision":2,"use_thousands":false"#,
    r#""kind":"number","percent":4294967296,"precision":2,"use_thousands":false"#,
    r#""kind":"number","percent":18446744073709551616,"precision":2,"use_thousands":false"#,
    r#""kind":"number","percent":1.0,"precision":2,"use_thousands":false"#,
    r#""kind":"number","percent":1e0,"precision":2,"use_thousands":false"#,
    r#""kind":"number","percent":-0,"precision":2,"use_thousands":false"#,
    r#""kind":"number","percent":"1","precision":2,"use_thousands":false"#,
    r#""kind":"number","percent":true,"precision":2,"use_thousands":false"#,
    r#""kind":"number","percent":null,"precision":2,"use_thousands":false"#,
    r#""kind":"number","percent":1,"percent":-1,"precision":2,"use_thousands":false"#,
    // other digits
    r#""kind":"number","percent":1,"precision":2147483648,"use_thousands":false"#,
    r#""kind":"number","percent":1,"precision":-2147483649,"use_thousands":false"#,
    r#""kind":"number","percent":1,"precision":9223372036854775808,"use_thousands":false"#,
    r#""kind":"number","percent":1,"precision":2.5,"use_thousands":false"#,
    r#""kind":"number","percent":1,"precision":2.0,"use_thousands":false"#,
    r#""kind":"number","percent":1,"precision":-0,"use_thousands":false"#,
    r#""kind":"number","percent":1,"precision":"2","use_thousands":false"#,
    r#""kind":"number","percent":1,"precision":null,"use_thousands":false"#,
    r#""kind":"number","percent":1,"precision":[2],"use_thousands":false"#,
    // no truth value
    r#""kind":"number","percent":1,"precision":2,"use_thousands":0"#,
    r#""kind":"number","percent":1,"precision":2,"use_thousands":1"#,
    r#""kind":"number","percent":1,"precision":2,"use_thousands":"true""#,
    r#""kind":"number","percent":1,"precision":2,"use_thousands":null"#,
    r#""kind":"number","percent":1,"precision":2,"use_thousands":{}"#,
];

#[test]
fn other_formats_are_refused(rt: HostRuntime) -> Result<(), Fail> {
    let alloc = rt.alloc();
    for &text in &OTHERS {
        assert_eq!(rt; refusal(alloc, text)?, Some(FormError::NotOfForm), "{text}");
    }
    for &members in &OTHER_MEMBERS {
        let refused = refusal_of_members(alloc, members)?;
        assert_eq!(rt; refused, Some(FormError::NotOfForm), "{members}");
    }
    Ok(())
}

fn refusal_of_members(alloc: Global, members: &str) -> Result<Option<FormError>, Fail> {
    let text = format!(in alloc; "{{\"a\":{{{members}}}}}")?;
    refusal(alloc, text.as_str())
}
