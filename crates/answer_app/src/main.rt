//! Reads a request from standard input and writes its answer to standard output.
#![tactic(auto)]

use answer_core::run;
use device_core::{StdSink, StdSource};
use std::process::ExitCode;
use std::{env, io};

/// The exit status where memory for the words of the command line ran out.
const NO_MEMORY: u8 = 8;

/// The exit status where the words can't be had for another cause, as words that are no text.
const NO_WORDS: u8 = 9;

fn main(rt: HostRuntime) -> ExitCode {
    match words(&rt) {
        Ok(words) => {
            let mut source = StdSource::new(rt.stdin());
            let mut sink = StdSink::new(rt.stdout());
            let status = run(rt.alloc(), words.as_slice(), &mut source, &mut sink);
            ExitCode::from(status.code())
        }
        Err(error) if error.kind() == io::ErrorKind::OutOfMemory => ExitCode::from(NO_MEMORY),
        Err(_) => ExitCode::from(NO_WORDS),
    }
}

/// The words behind the program's name.
fn words(rt: &HostRuntime) -> io::Result<Vec<String>> {
    let words = env::args(rt)?.skip(1).collect(rt.alloc())?;
    Ok(words)
}
