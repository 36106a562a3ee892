use serde_json::Value;
use std::alloc::Global;
use std::test::Fail;
use unit_json::read_locale;
use units_core::Locale;
use value_json::FormError;

/// Objects, and the five texts of their locales.
static GOOD: [(&str, [&str; 5]); 6] = [
    (
        r#"{"currency_symbol":"$","currency_standard":"¤#,##0.00","date_short":"m/d/yy","time_short":"h:mm a","date_time_short":"{1}, {0}"}"#,
        ["$", "¤#,##0.00", "m/d/yy", "h:mm a", "{1}, {0}"],
    ),
    (
        r##"{"currency_symbol":"€","currency_standard":"#,##0.00 ¤","date_short":"dd.MM.yy","time_short":"HH:mm","date_time_short":"{1} {0}"}"##,
        ["€", "#,##0.00 ¤", "dd.MM.yy", "HH:mm", "{1} {0}"],
    ),
    (
        r#" { "date_time_short" : "5" , "time_short" : "4" , "date_short" : "3" , "currency_standard" : "2" , "currency_symbol" : "1" } "#,
        ["1", "2", "3", "4", "5"],
    ),
    (
        r#"{"currency_symbol":"","currency_standard":"","date_short":"","time_short":"","date_time_short":""}"#,
        ["", "", "", "", ""],
    ),
    (
        r#"{"currency_symbol":"a\u00a0\"","currency_standard":"\\","date_short":"\n","time_short":"\ud83d\ude00","date_time_sho\u0072t":"b"}"#,
        ["a\u{a0}\"", "\\", "\n", "\u{1f600}", "b"],
    ),
    // of equal keys the last one counts, whatever the others say
    (
        r#"{"currency_symbol":7,"currency_standard":"0","date_short":null,"time_short":"4","date_time_short":"5","currency_symbol":"1","currency_standard":"2","date_short":"3"}"#,
        ["1", "2", "3", "4", "5"],
    ),
];

#[test]
fn locales_are_read_from_their_five_texts(rt: HostRuntime) -> Result<(), Fail> {
    for &(text, wanted) in &GOOD {
        assert!(rt; reads(rt.alloc(), text, wanted)?, "{text}");
    }
    Ok(())
}

/// The locale of a JSON text.
pub(super) fn locale_in(alloc: Global, text: &str) -> Result<Locale, Fail> {
    let value = Value::from_str(alloc, text)?;
    let locale = read_locale(alloc, &value)?;
    drop(value);
    Ok(locale)
}

/// Whether a JSON text is read as a locale of these texts.
fn reads(alloc: Global, text: &str, wanted: [&str; 5]) -> Result<bool, Fail> {
    let locale = locale_in(alloc, text)?;
    Ok(says(&locale, wanted))
}

fn says(locale: &Locale, texts: [&str; 5]) -> bool {
    locale.currency_symbol.as_str() == texts[0]
        && locale.currency_standard.as_str() == texts[1]
        && locale.date_short.as_str() == texts[2]
        && locale.time_short.as_str() == texts[3]
        && locale.date_time_short.as_str() == texts[4]
}

/// Values that are no locale.
static OTHERS: [&str; 24] = [
    "null",
    "true",
    "0",
    "[]",
    r#"["$","¤0","d","h","{1}{0}"]"#,
    r#""en""#,
    "{}",
    // a key is missing
    r#"{"currency_standard":"2","date_short":"3","time_short":"4","date_time_short":"5"}"#,
    r#"{"currency_symbol":"1","date_short":"3","time_short":"4","date_time_short":"5"}"#,
    r#"{"currency_symbol":"1","currency_standard":"2","time_short":"4","date_time_short":"5"}"#,
    r#"{"currency_symbol":"1","currency_standard":"2","date_short":"3","date_time_short":"5"}"#,
    r#"{"currency_symbol":"1","currency_standard":"2","date_short":"3","time_short":"4"}"#,
    // a key too many, one of another name
    r#"{"currency_symbol":"1","currency_standard":"2","date_short":"3","time_short":"4","date_time_short":"5","more":"6"}"#,
    r#"{"currency_symbol":"1","currency_standard":"2","date_short":"3","time_short":"4","date_time_short":"5","":null}"#,
    r#"{"Currency_symbol":"1","currency_standard":"2","date_short":"3","time_short":"4","date_time_short":"5"}"#,
    r#"{"currency_symbol":"1","currency_standard":"2","date_short":"3","time_short":"4","datetime_short":"5"}"#,
    // what is no text
    r#"{"currency_symbol":null,"currency_standard":"2","date_short":"3","time_short":"4","date_time_short":"5"}"#,
    r#"{"currency_symbol":"1","currency_standard":2,"date_short":"3","time_short":"4","date_time_short":"5"}"#,
    r#"{"currency_symbol":"1","currency_standard":"2","date_short":true,"time_short":"4","date_time_short":"5"}"#,
    r#"{"currency_symbol":"1","currency_standard":"2","date_short":"3","time_short":["4"],"date_time_short":"5"}"#,
    r#"{"currency_symbol":"1","currency_standard":"2","date_short":"3","time_short":"4","date_time_short":{"5":5}}"#,
    // the last of equal keys
    r#"{"currency_symbol":"1","currency_standard":"2","date_short":"3","time_short":"4","date_time_short":"5","currency_symbol":1}"#,
    r#"{"currency_symbol":"1","currency_standard":"2","date_short":"3","time_short":"4","date_time_short":"5","date_time_short":null}"#,
    r#"{"currency_symbol":"1","currency_symbol":"2","date_short":"3","time_short":"4","date_time_short":"5"}"#,
];

#[test]
fn other_locales_are_refused(rt: HostRuntime) -> Result<(), Fail> {
    for &text in &OTHERS {
        let refused = refusal(rt.alloc(), text)?;
        assert_eq!(rt; refused, Some(FormError::NotOfForm), "{text}");
    }
    Ok(())
}

/// Why no locale is read from a JSON text.
fn refusal(alloc: Global, text: &str) -> Result<Option<FormError>, Fail> {
    let value = Value::from_str(alloc, text)?;
    let refused = read_locale(alloc, &value).err();
    drop(value);
    Ok(refused)
}
