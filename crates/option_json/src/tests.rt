use super::*;
use import_core::ImportRule;
use serde_json::Value;
use std::test::Fail;
use value_json::FormError;

/// Objects, and how a request with these keys is to be answered.
static REQUESTS: [(&str, ImportRule, usize); 10] = [
    ("{}", ImportRule::AsCrate, 1000000),
    (r#"{"version":1}"#, ImportRule::AsCrate, 1000000),
    (r#"{"version":2}"#, ImportRule::AsCrate, 1000000),
    (
        r#"{"version":2,"rule":"every-scalar"}"#,
        ImportRule::EveryScalar,
        1000000,
    ),
    (
        r#"{"version":2,"rule":"as-crate"}"#,
        ImportRule::AsCrate,
        1000000,
    ),
    (r#"{"version":2,"limit":1}"#, ImportRule::AsCrate, 1),
    (
        r#"{"version":2,"limit":16777216}"#,
        ImportRule::AsCrate,
        16777216,
    ),
    (
        r#"{"limit":2000000,"rule":"every-scalar","version":2}"#,
        ImportRule::EveryScalar,
        2000000,
    ),
    (
        r#"{"version":3,"version":2,"limit":7}"#,
        ImportRule::AsCrate,
        7,
    ),
    (r#"{"more":[]}"#, ImportRule::AsCrate, 1000000),
];

#[test]
fn options_are_those_of_the_request(rt: HostRuntime) -> Result<(), Fail> {
    for &(text, rule, limit) in &REQUESTS {
        let request = Value::from_str(rt.alloc(), text)?;
        let options = read_options(&request);
        assert_eq!(rt; options, Ok(Options { rule, limit }), "{text}");
    }
    Ok(())
}

/// Objects of no request.
static OTHERS: [&str; 18] = [
    r#"{"version":0}"#,
    r#"{"version":3}"#,
    r#"{"version":-1}"#,
    r#"{"version":1.0}"#,
    r#"{"version":2e0}"#,
    r#"{"version":"2"}"#,
    r#"{"version":null}"#,
    r#"{"rule":"as-crate"}"#,
    r#"{"limit":1000000}"#,
    r#"{"version":1,"rule":"as-crate"}"#,
    r#"{"version":1,"limit":1000000}"#,
    r#"{"version":2,"rule":"As-Crate"}"#,
    r#"{"version":2,"rule":1}"#,
    r#"{"version":2,"limit":0}"#,
    r#"{"version":2,"limit":16777217}"#,
    r#"{"version":2,"limit":-1}"#,
    r#"{"version":2,"limit":1.5}"#,
    r#"{"version":2,"limit":"1"}"#,
];

#[test]
fn other_options_are_refused(rt: HostRuntime) -> Result<(), Fail> {
    for &text in &OTHERS {
        let request = Value::from_str(rt.alloc(), text)?;
        assert_eq!(rt; read_options(&request), Err(FormError::NotOfForm), "{text}");
    }
    Ok(())
}
