ghost use Rattle.std.specs.Prelude.{◌≡◌, ◌<◌, ◌≤◌, [], length, option_map, slice_index_or};
ghost use Rattle.std.specs.List.{list_any};
ghost use Rattle.std.specs.Option.{option_copied};
ghost use Rattle.std.specs.Str.{str_eq_ignore_ascii_case};
ghost use Rattle.reader_core.specs.Sheet.{body_of, body_start, given_sheet, head_of, is_mark, is_name, is_plain_name, is_quoted_name, named_sheet, past_byte, past_letter, sheet_of};

use book_core::Book;

/// The place behind the last `!` of a text, or 0.
fn body_start(text: &[u8]) -> usize
    ensures start { result ≡ body_start text.now }
    ensures within { result ≤ length text.now }
{
    let mut start = text.len();
    while start > 0 && text[start - 1] != b'!' {
        start -= 1;
    }
    start
}

/// What stands behind the last `!` of a text.
pub(crate) fn body_of(text: &[u8]) -> &[u8]
    ensures { result.now ≡ body_of text.now }
{
    &text[body_start(text)..]
}

/// What stands before the last `!` of a text, where there is one.
pub(crate) fn head_of(text: &[u8]) -> Option<&[u8]>
    ensures { option_copied result ≡ head_of text.now }
{
    let start = body_start(text);
    if start >= 1 {
        Some(&text[..start - 1])
    } else {
        None
    }
}

/// The sheet that a head names, or where there is none the given one; `None` exactly where the book has no such sheet.
pub(crate) fn sheet_of<B: Book>(book: &B, sheet: u32, head: Option<&[u8]>) -> Option<u32>
    ensures { result ≡ sheet_of (B.contents book.now).sheets sheet (option_copied head.entry) }
{
    match head {
        Some(head) => named_sheet(book, head),
        None => given_sheet(book, sheet),
    }
}

fn given_sheet<B: Book>(book: &B, sheet: u32) -> Option<u32>
    ensures { result ≡ given_sheet (B.contents book.now).sheets sheet }
{
    if sheet < book.sheet_count() {
        Some(sheet)
    } else {
        None
    }
}

/// The first sheet of a name.
fn named_sheet<B: Book>(book: &B, head: &[u8]) -> Option<u32>
    ensures { result ≡ named_sheet (B.contents book.now).sheets head.now }
{
    let count = book.sheet_count();
    for sheet in 0..count {
        if has_name(book, sheet, head) {
            return Some(sheet);
        }
    }
    None
}

fn has_name<B: Book>(book: &B, sheet: u32, head: &[u8]) -> bool
    requires { sheet < length (B.contents book.now).sheets }
    ensures { result ≡ is_name head.now (slice_index_or (B.contents book.now).sheets sheet []) }
{
    match book.sheet_name(sheet) {
        Some(name) => is_name(head, name.as_bytes()),
        None => false,
    }
}

fn is_name(head: &[u8], name: &[u8]) -> bool
    ensures { result ≡ is_name head.now name.now }
{
    match head.split_first() {
        Some((first, rest)) => {
            if *first == b'\'' {
                is_quoted_name(name, rest)
            } else {
                is_plain_name(name, head)
            }
        }
        None => false,
    }
}

fn is_plain_name(name: &[u8], text: &[u8]) -> bool
    ensures { result ≡ is_plain_name name.now text.now }
{
    text.len() >= 1 && !has_mark(text) && are_alike(text, name)
}

fn has_mark(text: &[u8]) -> bool
    ensures { result ≡ list_any is_mark text.now }
{
    text.iter().any(|byte| *byte == b'!')
}

fn are_alike(text: &[u8], name: &[u8]) -> bool
    ensures { result ≡ str_eq_ignore_ascii_case text.now name.now }
{
    text.eq_ignore_ascii_case(name)
}

/// Whether a text is a name in which each `'` is doubled, and then a `'`.
fn is_quoted_name(name: &[u8], text: &[u8]) -> bool
    ensures { result ≡ is_quoted_name name.now text.now }
{
    let mut rest = text;
    for letter in name {
        rest = match past_letter(*letter, rest) {
            Some(behind) => behind,
            None => return false,
        };
    }
    rest.len() == 1 && rest[0] == b'\''
}

fn past_byte(byte: u8, text: &[u8]) -> Option<&[u8]>
    ensures { option_copied result ≡ past_byte byte text.now }
{
    match text.split_first() {
        Some((first, rest)) => {
            if first.eq_ignore_ascii_case(&byte) {
                Some(rest)
            } else {
                None
            }
        }
        None => None,
    }
}

/// What is left of a text behind a letter of a name, in either case; a `'` stands twice.
fn past_letter(letter: u8, text: &[u8]) -> Option<&[u8]>
    ensures { option_copied result ≡ past_letter letter text.now }
{
    match past_byte(letter, text) {
        Some(rest) => {
            if letter == b'\'' {
                past_byte(letter, rest)
            } else {
                Some(rest)
            }
        }
        None => None,
    }
}
