use answer_core::{Answer, Status, answer_formula, run};
use book_core::MemoryBook;
use device_core::{MemorySink, MemorySource, SureSink, SureSource};
use intersect::ImportRule;
use kind_table::{CrateKinds, StaticResult};
use std::alloc::{AllocError, Global};
use std::test::Fail;
use tree_core::{ArrayNode, CellReferenceIndex, Memory, Node, Plain, Steps, Text};
use units_core::{Locale, MapFormats};

mod formulas;
mod functions;
mod kinds;
mod references;
mod requests;
mod values;

const COLUMN: &str =
    r#"{"sheets":["Sheet1"],"cells":[[0,1,1,1000000],[0,2,1,2000000],[0,3,1,3000000],[0,4,1,4000000],[0,5,1,5000000]],"cell":[0,3,3],"formula":["range",0,null,false,false,-2,-2,false,false,2,-2]}"#;

const COLUMN_ANSWER: &str =
    "{\"exported\":[\"range\",0,null,false,false,-2,-2,false,false,2,-2],\"given_shape\":\"Range(5,1)\",\"imported\":[\"at\",true,[\"range\",0,null,false,false,-2,-2,false,false,2,-2]],\"imported_shape\":\"Scalar\",\"legacy\":[[3000000]],\"spilled\":[[1000000],[2000000],[3000000],[4000000],[5000000]],\"unit\":null}\n";

const RUNS: &str =
    r#"{"sheets":["Sheet1"],"cells":[],"cell":[0,3,3],"formula":["add",["at",true,["at",false,["num",1000000]]],["at",false,["add",["range",0,null,true,true,1,1,true,true,3,1],["num",0]]]]}"#;

const RUNS_ANSWER: &str =
    "{\"exported\":[\"add\",[\"at\",false,[\"num\",1000000]],[\"at\",false,[\"add\",[\"range\",0,null,true,true,1,1,true,true,3,1],[\"num\",0]]]],\"given_shape\":\"Scalar\",\"imported\":[\"add\",[\"at\",false,[\"num\",1000000]],[\"at\",false,[\"add\",[\"range\",0,null,true,true,1,1,true,true,3,1],[\"num\",0]]]],\"imported_shape\":\"Scalar\",\"legacy\":[[1000000]],\"spilled\":[[1000000]],\"unit\":null}\n";

/// SUM(1,{1,2;3}), and the same in a cell of row 0; a call of a number that the table doesn't know.
const UNEVEN: &str =
    r#"{"sheets":["Sheet1"],"cells":[],"cell":[0,1,1],"formula":["call","SUM",["num",1000000],["array",[[1000000,2000000],[3000000]]]]}"#;

const OFF_THE_SHEET: &str =
    r#"{"sheets":["Sheet1"],"cells":[],"cell":[0,0,1],"formula":["call","SUM",["num",1000000],["array",[[1000000,2000000],[3000000]]]]}"#;

const UNKNOWN: &str = r#"{"sheets":["Sheet1"],"cells":[],"cell":[0,1,1],"formula":["call",65535]}"#;

const USAGE: &str = "usage: answer, cell ROW COLUMN or generate N\n";

/// HSTACK(A1:A2,{7}) over an empty sheet.
const BESIDE: &str =
    r#"{"sheets":["Sheet1"],"cells":[],"cell":[0,1,5],"formula":["call","HSTACK",["range",0,null,true,true,1,1,true,true,2,1],["array",[[7000000]]]]}"#;

/// TAKE(TRANSPOSE(A:XFD),1,-1), the last cell of the first column, which alone is filled.
const LAST_OF_ALL: &str =
    r#"{"sheets":["Sheet1"],"cells":[[0,1048576,1,true]],"cell":[0,1,5],"formula":["call","TAKE",["call","TRANSPOSE",["range",0,null,true,true,1,1,true,true,1048576,16384]],["num",1000000],["num",-1000000]]}"#;

/// The line on the request that 0 makes.
const GENERATED: &str = "nodes 138 added 27 kept 0 rows 1000 columns 1 legacy 506450\n";

fn owned(alloc: Global, words: &[&str]) -> Result<Vec<String>, AllocError> {
    let mut all = Vec::new(alloc);
    for word in words {
        all.push(String::from_str(alloc, word)?)?;
    }
    Ok(all)
}

/// Words and bytes, what is written, and the status as a code.
static RUN_CASES: [(&[&str], &str, &str, u8); 30] = [
    (&["answer"], COLUMN, COLUMN_ANSWER, 0),
    (&["answer"], RUNS, RUNS_ANSWER, 0),
    (&["answer"], "", "bad json\n", 3),
    (&["answer"], UNEVEN, "bad request at node 2\n", 4),
    (&["answer"], OFF_THE_SHEET, "bad request at cell\n", 4),
    (&["answer"], UNKNOWN, "bad request at node 0\n", 4),
    (&[], COLUMN, USAGE, 2),
    (&["answer", "now"], COLUMN, USAGE, 2),
    (&["cell", "0", "1"], COLUMN, USAGE, 2),
    (&["cell", "1", "01"], COLUMN, USAGE, 2),
    (&["cell", "4294967296", "1"], COLUMN, USAGE, 2),
    (&["cell", "1"], COLUMN, USAGE, 2),
    (&["cell", "1", "1"], "", "bad json\n", 3),
    (&["cell", "1", "1"], UNEVEN, "bad request at node 2\n", 4),
    (&["cell", "2", "1"], COLUMN, "2000000\n", 0),
    (&["cell", "4294967295", "1"], COLUMN, "none\n", 0),
    (&["cell", "1", "2"], BESIDE, "7000000\n", 0),
    (&["cell", "2", "2"], BESIDE, "{\"error\":\"#N/A\"}\n", 0),
    (&["cell", "1", "1"], BESIDE, "null\n", 0),
    (&["cell", "3", "1"], BESIDE, "none\n", 0),
    (&["cell", "1", "1"], LAST_OF_ALL, "true\n", 0),
    (&["cell", "1", "1"], RUNS, "1000000\n", 0),
    (&["answer", "0"], COLUMN, USAGE, 2),
    (&["generate", "0"], "", GENERATED, 0),
    (&["generate", "01"], COLUMN, USAGE, 2),
    (&["generate", "1000000"], COLUMN, USAGE, 2),
    (&["generate", "-1"], COLUMN, USAGE, 2),
    (&["generate", ""], COLUMN, USAGE, 2),
    (&["generate"], COLUMN, USAGE, 2),
    (&["--help"], COLUMN, USAGE, 2),
];

#[test]
fn words_and_bytes_have_their_lines(rt: HostRuntime) -> Result<(), Fail> {
    for &(words, bytes, written, code) in &RUN_CASES {
        assert!(rt; runs(rt.alloc(), words, bytes, written, code)?, "{words:?}");
    }
    Ok(())
}

/// Whether a run with some words over some bytes writes a text and ends with the status of a code.
fn runs(alloc: Global, words: &[&str], bytes: &str, written: &str, code: u8) -> Result<bool, Fail> {
    let words = owned(alloc, words)?;
    let mut source = SureSource::new(bytes.as_bytes().to_vec(alloc)?);
    let mut sink = SureSink::new(alloc, 1000)?;
    let ended = run(alloc, words.as_slice(), &mut source, &mut sink);
    Ok(ended.code() == code && sink.written() == written.as_bytes())
}

/// Whether a request is answered with a line.
fn answers(alloc: Global, request: &str, line: &str) -> Result<bool, Fail> {
    runs(alloc, &["answer"], request, line, 0)
}

/// Whether a request is answered with a line that ends so.
fn answers_in(alloc: Global, request: &str, end: &str) -> Result<bool, Fail> {
    let words = owned(alloc, &["answer"])?;
    let mut source = SureSource::new(request.as_bytes().to_vec(alloc)?);
    let mut sink = SureSink::new(alloc, 1000)?;
    let ended = run(alloc, words.as_slice(), &mut source, &mut sink);
    Ok(ended == Status::Done && sink.written().ends_with(end.as_bytes()))
}

/// A run over devices that fail: the bytes, the calls of the source and of the sink that fail, what is written, and the status.
/// Calls are numbered from 1, so a device that fails at call 0 never does.
static FAULTS: [(&str, usize, usize, &str, Status); 3] = [
    (COLUMN, 0, 2, "{\"exported", Status::WriteFault),
    (COLUMN, 2, 0, "read fault\n", Status::ReadFault),
    ("", 0, 1, "", Status::WriteFault),
];

#[test]
fn faults_show_in_the_status(rt: HostRuntime) -> Result<(), Fail> {
    for &(bytes, source_fails, sink_fails, written, status) in &FAULTS {
        assert!(rt; fails(rt.alloc(), bytes, source_fails, sink_fails, written, status)?);
    }
    Ok(())
}

fn fails(
    alloc: Global,
    bytes: &str,
    source_fails: usize,
    sink_fails: usize,
    written: &str,
    status: Status,
) -> Result<bool, Fail> {
    let words = owned(alloc, &["answer"])?;
    let mut source = failing_source(alloc, bytes, source_fails)?;
    let failing = [sink_fails].to_vec(alloc)?;
    let mut sink = MemorySink::new(alloc, 1000, 10, failing)?;
    let ended = run(alloc, words.as_slice(), &mut source, &mut sink);
    Ok(ended == status && sink.written() == written.as_bytes())
}

fn failing_source(alloc: Global, bytes: &str, fails: usize) -> Result<MemorySource, Fail> {
    let bytes = bytes.as_bytes().to_vec(alloc)?;
    let failing = [fails].to_vec(alloc)?;
    Ok(MemorySource::new(bytes, 50, failing))
}

#[test]
fn no_input_is_too_long_but_past_the_limit(rt: HostRuntime) -> Result<(), Fail> {
    let alloc = rt.alloc();
    assert!(rt; refuses_blanks(alloc, 16777216, "bad json\n", Status::BadJson)?);
    assert!(rt; refuses_blanks(alloc, 16777217, "too long\n", Status::TooLong)?);
    Ok(())
}

fn refuses_blanks(
    alloc: Global,
    length: usize,
    written: &str,
    status: Status,
) -> Result<bool, Fail> {
    let words = owned(alloc, &["answer"])?;
    let mut source = SureSource::new(vec![in alloc; b' '; length]?);
    let mut sink = SureSink::new(alloc, 100)?;
    let ended = run(alloc, words.as_slice(), &mut source, &mut sink);
    Ok(ended == status && sink.written() == written.as_bytes())
}

#[test]
fn a_number_is_its_own_answer(rt: HostRuntime) -> Result<(), Fail> {
    let alloc = rt.alloc();
    let answer = answer_of_seven(alloc)?;
    assert!(rt; answer.imported == Node::NumberKind(7));
    assert!(rt; answer.exported == Node::NumberKind(7));
    assert_eq!(rt; answer.imported_shape, StaticResult::Scalar);
    assert!(rt; answer.spilled.get(0, 0) == Some(&ArrayNode::Number(7)));
    assert!(rt; answer.unit.is_none());
    Ok(())
}

/// The answer to the number of seven millionths, by the other rule and under the least limit.
fn answer_of_seven(alloc: Global) -> Result<Answer, Fail> {
    let book = book_of_one_sheet(alloc)?;
    let cell = CellReferenceIndex {
        sheet: 0,
        row: 1,
        column: 1,
    };
    let number = Node::NumberKind(7);
    let mut steps = Steps::new(Plain);
    let rule = ImportRule::EveryScalar;
    let kinds = &CrateKinds;
    let formats = MapFormats::new(alloc);
    let locale = Locale::standard(alloc)?;
    let answered = answer_formula(
        alloc, kinds, &book, &formats, &locale, rule, 1, cell, &number, &mut steps,
    );
    answered.map_err(|_| "no answer".into())
}

fn book_of_one_sheet(alloc: Global) -> Result<MemoryBook, Memory> {
    let mut book = MemoryBook::new(alloc);
    book.add_sheet(Text::from_text(alloc, "Sheet1")?)?;
    Ok(book)
}
