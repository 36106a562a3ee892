use super::*;
use std::test::Fail;

/// Marks, and texts without and with them.
static QUOTED: [(char, &str, &str); 6] = [
    ('\'', "", "''"),
    ('\'', "a", "'a'"),
    ('\'', "a'b''", "'a''b'''''"),
    ('\'', "\"", "'\"'"),
    ('"', "é\"表", "\"é\"\"表\""),
    ('"', "'", "\"'\""),
];

#[test]
fn texts_stand_between_marks(rt: HostRuntime) -> Result<(), Fail> {
    for &(mark, text, wanted) in &QUOTED {
        if mark == '"' || mark == '\'' {
            let made = quoted(rt.alloc(), mark, text)?;
            assert_eq!(rt; made.as_str(), wanted);
        }
    }
    Ok(())
}
