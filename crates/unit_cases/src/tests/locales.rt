use super::Parts::{self, Currency, Date};
use super::{book_of_sheets, formats, parts_of, unit_of};
use std::alloc::Global;
use std::test::Fail;
use units_core::Locale;
use value_core::{Memory, Text};

/// The texts of a locale: the sign of its currency, the format of an amount, of a date, of a time,
/// and of both.
type LocaleTexts = (
    &'static str,
    &'static str,
    &'static str,
    &'static str,
    &'static str,
);

fn locale_of(alloc: Global, texts: LocaleTexts) -> Result<Locale, Memory> {
    let currency_symbol = Text::from_text(alloc, texts.0)?;
    let currency_standard = Text::from_text(alloc, texts.1)?;
    let date_short = Text::from_text(alloc, texts.2)?;
    let time_short = Text::from_text(alloc, texts.3)?;
    let date_time_short = Text::from_text(alloc, texts.4)?;
    Ok(Locale {
        currency_symbol,
        currency_standard,
        date_short,
        time_short,
        date_time_short,
    })
}

/// Whether a call of a kind has a unit in a locale.
fn has(alloc: Global, texts: LocaleTexts, call: &str, wanted: Parts) -> Result<bool, Fail> {
    let book = book_of_sheets(alloc)?;
    let formats = formats(alloc)?;
    let locale = locale_of(alloc, texts)?;
    let unit = unit_of(alloc, call, &book, &formats, &locale)?;
    Ok(parts_of(&unit) == wanted)
}

/// The sign of a currency, the format of an amount, and the number format of a payment.
static CURRENCIES: [(&str, &str, &str); 14] = [
    ("$", "¤#,##0.00", "$#,##0.00"),
    ("£", "¤ #,##0.00", "£ #,##0.00"),
    ("€", "#,##0.00\u{a0}¤", "#,##0.00 €"),
    ("€", "¤\u{a0}#,##0.00", "€ #,##0.00"),
    (
        "CHF",
        "¤\u{a0}#,##0.00;¤-#,##0.00",
        "CHF #,##0.00;CHF-#,##0.00",
    ),
    ("x", "¤¤", "xx"),
    ("¤", "¤0", "¤0"),
    ("¤¤", "0¤", "0¤¤"),
    ("", "¤#,##0", "#,##0"),
    ("kr", "#,##0.00", "#,##0.00"),
    ("US\u{a0}$", "¤0", "US $0"),
    ("\u{a0}", "\u{a0}¤\u{a0}0", "   0"),
    ("\u{202f}", "¤\u{2007}0 ", "\u{202f}\u{2007}0 "),
    ("", "", ""),
];

#[test]
fn payments_are_in_the_currency_of_the_locale(rt: HostRuntime) -> Result<(), Fail> {
    for &(sign, standard, num_fmt) in &CURRENCIES {
        let texts = (sign, standard, "m/d/yy", "h:mm a", "{1}, {0}");
        let wanted = Currency(true, 2, num_fmt, sign);
        assert!(rt;
            has(rt.alloc(), texts, r#"["call","PMT"]"#, wanted)?,
            "{sign} {standard}"
        );
    }
    Ok(())
}

/// The format of a short date, and the number format of a date.
static DATES: [(&str, &str); 16] = [
    ("m/d/yy", "m/d/yyyy"),
    ("dd/MM/yy", "dd/MM/yyyy"),
    ("yy-MM-dd", "yyyy-MM-dd"),
    ("dd/MM/yyyy", "dd/MM/yyyy"),
    ("y/M/d", "y/M/d"),
    ("yyy/M/d", "yyyyy/M/d"),
    ("yyyyy", "yyyyy"),
    ("yyyyyy", "yyyyyy"),
    ("yy yy", "yyyy yyyy"),
    ("yy yyyy", "yy yyyy"),
    ("yyy yyy", "yyyyy yyyyy"),
    ("YY", "YY"),
    ("d.\u{a0}M.\u{a0}yy", "d. M. yyyy"),
    ("yyyy\u{a0}M", "yyyy M"),
    ("\u{a0}d\u{202f}M ", " d\u{202f}M "),
    ("", ""),
];

#[test]
fn dates_have_four_digits_of_the_year(rt: HostRuntime) -> Result<(), Fail> {
    for &(date, num_fmt) in &DATES {
        let texts = ("$", "¤0", date, "h:mm a", "{1}, {0}");
        let wanted = Date(num_fmt);
        assert!(rt;
            has(rt.alloc(), texts, r#"["call","DATE"]"#, wanted)?,
            "{date}"
        );
        assert!(rt;
            has(rt.alloc(), texts, r#"["call","TODAY"]"#, wanted)?,
            "{date}"
        );
    }
    Ok(())
}

/// The formats of a short date, of a short time, and of both, and the number format of a date with
/// its time.
static TIMES: [(&str, &str, &str, &str); 22] = [
    ("m/d/yy", "h:mm a", "{1}, {0}", "m/d/yyyy, h:mm AM/PM"),
    ("dd/MM/yyyy", "HH:mm", "{1} {0}", "dd/MM/yyyy HH:mm"),
    ("yy", "h", "{0} {1}", "h yyyy"),
    ("yy", "h", "{1}\u{a0}{0}", "yyyy h"),
    (
        "d.\u{a0}M.\u{a0}yy",
        "h:mm\u{a0}a",
        "{1},\u{a0}{0}",
        "d. M. yyyy, h:mm AM/PM",
    ),
    ("yy", "\u{a0}h:mm a\u{202f}\n", "{1} {0}", "yyyy h:mm AM/PM"),
    ("yy", "h:mm\u{202f}a", "{1} {0}", "yyyy h:mm\u{202f}AM/PM"),
    ("yy", "\u{3000}h:mm\u{200b}", "{0}", "h:mm\u{200b}"),
    (" d ", " h ", "{1},{0}", " d ,h"),
    ("d", "a h", "{0}", "AM/PM h"),
    ("d", "aa:A", "{0}", "AM/PMAM/PM:A"),
    ("da", "h", "{1}", "da"),
    ("d", "h", "{0}{0}{1}{1}", "hhdd"),
    ("d", "h", "{1}", "d"),
    ("d", "h", "at {2}", "at {2}"),
    ("d", "h", "{ 0}{}{0", "{ 0}{}{0"),
    ("d", "h", "{{0}{1}}", "{hd}"),
    // the time stands there before the date does
    ("d", "{1}h", "{0}", "dh"),
    ("d", " ", "{{0}1}", "d"),
    ("{0}", "h", "{1}", "{0}"),
    ("", "", "{1}{0}", ""),
    ("yy", "a", "", ""),
];

#[test]
fn now_is_a_date_with_its_time(rt: HostRuntime) -> Result<(), Fail> {
    for &(date, time, both, num_fmt) in &TIMES {
        let texts = ("$", "¤0", date, time, both);
        assert!(rt;
            has(rt.alloc(), texts, r#"["call","NOW"]"#, Date(num_fmt))?,
            "{date} {time} {both}"
        );
    }
    Ok(())
}

#[test]
fn the_standard_locale_is_that_of_the_united_states(rt: HostRuntime) -> Result<(), Fail> {
    let locale = Locale::standard(rt.alloc())?;
    assert_eq!(rt; locale.currency_symbol.as_str(), "$");
    assert_eq!(rt; locale.currency_standard.as_str(), "¤#,##0.00");
    assert_eq!(rt; locale.date_short.as_str(), "m/d/yy");
    assert_eq!(rt; locale.time_short.as_str(), "h:mm a");
    assert_eq!(rt; locale.date_time_short.as_str(), "{1}, {0}");
    Ok(())
}
