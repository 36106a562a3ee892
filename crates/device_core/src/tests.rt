ghost use Rattle.std.specs.Prelude.{None};

use super::*;
use std::io;
use std::io::{ErrorKind, Read};
use std::test::Fail;

// A source of zeros that tells nothing. It breaks at the end if it is told to.
#[derive(Drop)]
struct Zeros {
    left: usize,
    breaks: bool,
    faults: u64,
}

impl Source for Zeros {
    ghost unread = { λ _. None };

    ghost faults = { λ zeros. zeros.faults };

    fn take(&mut self, into: &mut [u8]) -> Result<usize, Failed> {
        if self.left == 0 && self.breaks {
            self.faults = self.faults.saturating_add(1);
            return Err(Failed);
        }
        let count = self.left.min(into.len());
        self.left -= count;
        Ok(count)
    }
}

// A reader that always fails.
#[derive(Drop)]
struct Broken;

impl Read for Broken {
    fn read(&mut self, _buf: &mut [u8]) -> io::Result<usize> {
        Err(ErrorKind::Other.into())
    }
}

// What each call of a source of the bytes abcdef gives, two at most, where the second call fails, and what then stands in
// the three places.
static TAKES: [(Result<usize, Failed>, &str); 5] = [
    (Ok(2), "ab_"),
    (Err(Failed), "ab_"),
    (Ok(2), "cd_"),
    (Ok(2), "ef_"),
    (Ok(0), "ef_"),
];

// What each piece given to a sink of five places comes to, three bytes at most, where the first and the third call fail, and
// what is then kept.
static GIVES: [(&str, Result<usize, Failed>, &str); 5] = [
    ("abcd", Err(Failed), ""),
    ("abcd", Ok(3), "abc"),
    ("d", Err(Failed), "abc"),
    ("d", Ok(1), "abcd"),
    ("efg", Ok(3), "abcde"),
];

// Sources of so many zeros, which break at the end or don't, and what reading to the end comes to.
static ENDS: [(usize, bool, Result<usize, ReadError>); 4] = [
    (9_000, false, Ok(9_000)),
    (9_000, true, Err(ReadError::Fault)),
    (16_777_216, false, Ok(16_777_216)),
    (16_777_217, true, Err(ReadError::TooLong)),
];

// How many bytes reading to the end gives.
fn count_read<S: Source>(rt: &HostRuntime, source: &mut S) -> Result<usize, ReadError> {
    let bytes = read_to_end(rt.alloc(), source)?;
    Ok(bytes.len())
}

#[test]
fn a_memory_source_gives_short_pieces_and_fails_on_time(rt: HostRuntime) -> Result<(), Fail> {
    let failing = [2].to_vec(rt.alloc())?;
    let mut source = MemorySource::new(b"abcdef".to_vec(rt.alloc())?, 2, failing);
    let mut into = *b"___";
    for &(answer, bytes) in &TAKES {
        assert_eq!(rt; source.take(&mut into), answer);
        assert_eq!(rt; into.as_slice(), bytes.as_bytes());
    }
    let mut single = MemorySource::new(b"xyz".to_vec(rt.alloc())?, 1, Vec::new(rt.alloc()));
    assert_eq!(rt; single.take(&mut into), Ok(1));
    assert_eq!(rt; into.as_slice(), b"xf_".as_slice());
    Ok(())
}

#[test]
fn a_memory_sink_keeps_what_it_has_room_for(rt: HostRuntime) -> Result<(), Fail> {
    let failing = [1, 3].to_vec(rt.alloc())?;
    let mut sink = MemorySink::new(rt.alloc(), 5, 3, failing)?;
    for &(piece, answer, kept) in &GIVES {
        assert_eq!(rt; sink.give(piece.as_bytes()), answer);
        assert_eq!(rt; sink.written(), kept.as_bytes());
    }
    let mut sure = SureSink::new(rt.alloc(), 4)?;
    assert_eq!(rt; sure.give(b"abc"), Ok(3));
    assert_eq!(rt; sure.give(b"def"), Ok(3));
    assert_eq!(rt; sure.written(), b"abcd".as_slice());
    Ok(())
}

#[test]
fn a_source_is_read_to_its_end(rt: HostRuntime) -> Result<(), Fail> {
    let mut whole = MemorySource::new(b"some text".to_vec(rt.alloc())?, 4, Vec::new(rt.alloc()));
    assert_eq!(rt;
        read_to_end(rt.alloc(), &mut whole)?.as_slice(),
        b"some text".as_slice()
    );
    let mut fails = MemorySource::new(b"some text".to_vec(rt.alloc())?, 4, [2].to_vec(rt.alloc())?);
    assert_eq!(rt; count_read(&rt, &mut fails), Err(ReadError::Fault));
    let mut std_source = StdSource::new(b"piped".as_slice());
    assert_eq!(rt;
        read_to_end(rt.alloc(), &mut std_source)?.as_slice(),
        b"piped".as_slice()
    );
    let mut broken = StdSource::new(Broken);
    assert_eq!(rt; count_read(&rt, &mut broken), Err(ReadError::Fault));
    Ok(())
}

#[test]
fn reading_stops_at_the_limit(rt: HostRuntime) -> Result<(), Fail> {
    let mut full = SureSource::new(vec![in rt.alloc(); b' '; LIMIT]?);
    assert_eq!(rt; count_read(&rt, &mut full), Ok(LIMIT));
    let mut over = SureSource::new(vec![in rt.alloc(); b' '; LIMIT + 1]?);
    assert_eq!(rt; count_read(&rt, &mut over), Err(ReadError::TooLong));
    for &(left, breaks, answer) in &ENDS {
        let mut zeros = Zeros {
            left,
            breaks,
            faults: 0,
        };
        assert_eq!(rt; count_read(&rt, &mut zeros), answer, "{left}");
    }
    Ok(())
}

#[test]
fn a_text_is_written_whole_or_cut(rt: HostRuntime) -> Result<(), Fail> {
    let text = b"twenty-three characters";
    let mut whole = MemorySink::new(rt.alloc(), 99, 10, Vec::new(rt.alloc()))?;
    assert_eq!(rt; write_all(&mut whole, text), Ok(()));
    assert_eq!(rt; whole.written(), text.as_slice());
    let mut cut = MemorySink::new(rt.alloc(), 99, 10, [2].to_vec(rt.alloc())?)?;
    assert_eq!(rt; write_all(&mut cut, text), Err(Failed));
    assert_eq!(rt; cut.written(), b"twenty-thr".as_slice());
    let mut paper = [0; 4];
    let mut std_sink = StdSink::new(paper.as_mut_slice());
    assert_eq!(rt; write_all(&mut std_sink, b"ab"), Ok(()));
    assert_eq!(rt; write_all(&mut std_sink, b"cdef"), Err(Failed));
    Ok(())
}
