use crate::{FormError, Request, read_request};
use book_core::{Book, Reads};
use import_core::ImportRule;
use std::alloc::{AllocError, Global};
use std::test::Fail;
use tree_core::{Node, Plain, Steps};
use units_core::{FirstPart, Formats};
use value_core::{ArrayNode, CellReferenceIndex};

fn with_cells(alloc: Global, cells: &str) -> Result<String, AllocError> {
    format!(in alloc;
        "{{\"sheets\":[\"S\",\"T\"],\"cells\":[{cells}],\"cell\":[3,-1,2],\"formula\":[\"num\",7]}}"
    )
}

fn read(alloc: Global, text: &str) -> Result<Request, FormError> {
    read_request(alloc, text.as_bytes())
}

#[test]
fn a_request_is_read_whole(rt: HostRuntime) -> Result<(), Fail> {
    let alloc = rt.alloc();
    let cells =
        r##"[0,1,1,1500000],[1,1048576,16384,null,"0%"],[0,2,1,true,null,"=A1"],[0,1,2,{"error":"#N/A"},null,null],[1,1,1,"x"]"##;
    let text = with_cells(alloc, cells)?;
    let request = read(alloc, text.as_str())?;
    let cell = CellReferenceIndex {
        sheet: 3,
        row: -1,
        column: 2,
    };
    assert_eq!(rt; request.cell, cell);
    assert_eq!(rt; request.formula, Node::NumberKind(7));
    for (sheet, row, column, holds) in [
        (0, 1, 1, true),
        (1, 1048576, 16384, true),
        (0, 2, 1, true),
        (0, 1, 2, true),
        (1, 1, 1, true),
        (1, 1, 2, false),
    ] {
        let cell = CellReferenceIndex { sheet, row, column };
        assert_eq!(rt; request.book.holds(cell), holds);
    }
    let corner = CellReferenceIndex {
        sheet: 1,
        row: 1048576,
        column: 16384,
    };
    assert_eq!(rt; request.book.num_fmt(corner), Some("0%"));
    let below = CellReferenceIndex {
        sheet: 0,
        row: 2,
        column: 1,
    };
    assert_eq!(rt; request.book.formula(below), Some("=A1"));
    let mut steps = Steps::new(Plain);
    let value = request.book.value(below, &mut steps);
    assert!(rt; value.is(&ArrayNode::Boolean(true)));
    Ok(())
}

/// What is no list of cells of a book with two sheets.
static OTHER_CELLS: [&str; 18] = [
    "1",
    "null",
    "[]",
    "[0,1,1]",
    "[0,1,1,1.5]",
    "[0,1,1,[]]",
    r##"[0,1,1,{"error":"N/A"}]"##,
    r##"[0,1,1,{"error":"#N/A","more":1}]"##,
    "[0,1,1,null,7]",
    "[0,1,1,null,null,7]",
    "[0,1,1,null,null,null,null]",
    "[2,1,1,null]",
    "[-1,1,1,null]",
    "[0,0,1,null]",
    "[0,1048577,1,null]",
    "[0,1,0,null]",
    "[0,1,16385,null]",
    "[0,1,1,null],[1,1,1,2],[0,1,1,3]",
];

#[test]
fn other_cells_are_refused(rt: HostRuntime) -> Result<(), Fail> {
    let alloc = rt.alloc();
    for &cells in &OTHER_CELLS {
        let text = with_cells(alloc, cells)?;
        let refused = read(alloc, text.as_str()).err();
        assert_eq!(rt; refused, Some(FormError::NotOfForm), "{cells}");
    }
    Ok(())
}

/// Texts that are no request.
static OTHER_TEXTS: [&str; 24] = [
    "",
    " \t\r\n ",
    "null",
    "[]",
    "{",
    r#"{"sheets":[],"cells":[],"cell":[0,1,1],"formula":["num",1]} x"#,
    r#"{"sheets":[],"cells":[],"cell":[0,1,1]}"#,
    r#"{"sheets":[],"cells":[],"cell":[0,1,1],"formulas":["num",1]}"#,
    r#"{"sheets":[],"cells":[],"cell":[0,1,1],"formula":["num",1],"more":1}"#,
    r#"{"sheets":"S","cells":[],"cell":[0,1,1],"formula":["num",1]}"#,
    r#"{"sheets":["S",1],"cells":[],"cell":[0,1,1],"formula":["num",1]}"#,
    r#"{"sheets":[],"cells":{},"cell":[0,1,1],"formula":["num",1]}"#,
    r#"{"sheets":[],"cells":[],"cell":[0,1],"formula":["num",1]}"#,
    r#"{"sheets":[],"cells":[],"cell":[-1,1,1],"formula":["num",1]}"#,
    r#"{"sheets":[],"cells":[],"cell":[0,2147483648,1],"formula":["num",1]}"#,
    r#"{"sheets":[],"cells":[],"cell":[0,1,null],"formula":["num",1]}"#,
    r#"{"sheets":[],"cells":[],"cell":[0,1,1],"formula":["num",1],"formula":7}"#,
    r#"{"sheets":[],"cells":[],"cell":[0,1,1],"formula":["num",1],"formats":[]}"#,
    r#"{"sheets":[],"cells":[],"cell":[0,1,1],"formula":["num",1],"formats":{"0":"dates"}}"#,
    r#"{"sheets":[],"cells":[],"cell":[0,1,1],"formula":["num",1],"locale":{"currency_symbol":"$"}}"#,
    r#"{"sheets":[],"cells":[],"cell":[0,1,1],"formula":["num",1],"version":3}"#,
    r#"{"sheets":[],"cells":[],"cell":[0,1,1],"formula":["num",1],"version":2,"limit":0}"#,
    r#"{"sheets":[],"cells":[],"cell":[0,1,1],"formula":["num",1],"version":2,"rule":"none"}"#,
    r#"{"sheets":[],"cells":[],"cell":[0,1,1],"formula":["num",1],"limit":7}"#,
];

#[test]
fn other_texts_are_refused(rt: HostRuntime) {
    for &text in &OTHER_TEXTS {
        let refused = read(rt.alloc(), text).err();
        assert_eq!(rt; refused, Some(FormError::NotOfForm), "{text}");
    }
}

#[test]
fn bytes_that_are_no_text_are_refused(rt: HostRuntime) {
    let bytes = b"{\"sheets\":[\"\xff\"],\"cells\":[],\"cell\":[0,1,1],\"formula\":[\"num\",1]}";
    let refused = read_request(rt.alloc(), bytes).err();
    assert_eq!(rt; refused, Some(FormError::NotOfForm));
}

#[test]
fn the_last_of_equal_keys_counts(rt: HostRuntime) -> Result<(), Fail> {
    let text = r#"{"formula":7,"sheets":[],"cells":[],"cell":[0,1,1],"formula":["num",1]}"#;
    let request = read(rt.alloc(), text)?;
    assert_eq!(rt; request.formula, Node::NumberKind(1));
    Ok(())
}

const SHOWN: &str =
    r##"{"sheets":[],"cells":[],"cell":[0,1,1],"formula":["num",1],"version":2,"rule":"every-scalar","limit":7,"formats":{"0%":"general","d":"date","d":"error"},"locale":{"currency_symbol":"€","currency_standard":"#,##0.00 ¤","date_short":"dd.MM.yy","time_short":"HH:mm","date_time_short":"{1}, {0}"}}"##;

#[test]
fn a_request_says_how_it_is_shown_and_answered(rt: HostRuntime) -> Result<(), Fail> {
    let request = read(rt.alloc(), SHOWN)?;
    assert!(rt; request.formats.first_part("0%") == FirstPart::General);
    assert!(rt; request.formats.first_part("d") == FirstPart::Error);
    assert!(rt; request.formats.first_part("0") == FirstPart::None);
    assert_eq!(rt; request.locale.currency_symbol.as_str(), "€");
    assert_eq!(rt; request.locale.date_short.as_str(), "dd.MM.yy");
    assert!(rt; request.options.rule == ImportRule::EveryScalar);
    assert_eq!(rt; request.options.limit, 7);
    Ok(())
}

#[test]
fn a_request_may_leave_much_unsaid(rt: HostRuntime) -> Result<(), Fail> {
    let text = r#"{"sheets":[],"cells":[],"cell":[0,1,1],"formula":["num",1]}"#;
    let request = read(rt.alloc(), text)?;
    assert!(rt; request.formats.first_part("0%") == FirstPart::None);
    assert_eq!(rt; request.locale.currency_symbol.as_str(), "$");
    assert_eq!(rt; request.locale.time_short.as_str(), "h:mm a");
    assert!(rt; request.options.rule == ImportRule::AsCrate);
    assert_eq!(rt; request.options.limit, 1000000);
    Ok(())
}

fn nested(alloc: Global, depth: usize) -> Result<String, AllocError> {
    let mut text = String::new(alloc);
    text.push_str(r#"{"sheets":[],"cells":[],"cell":[0,1,1],"formula":"#)?;
    for _ in 0..depth {
        text.push_str("[\"neg\",")?;
    }
    text.push_str("[\"num\",1]")?;
    for _ in 0..depth {
        text.push_str("]")?;
    }
    text.push_str("}")?;
    Ok(text)
}

#[test]
fn a_request_nests_127_deep(rt: HostRuntime) -> Result<(), Fail> {
    let alloc = rt.alloc();
    for (depth, refused) in [(125, None), (126, Some(FormError::NotOfForm))] {
        let text = nested(alloc, depth)?;
        let answer = read(alloc, text.as_str()).err();
        assert_eq!(rt; answer, refused, "{depth} operators");
    }
    Ok(())
}
