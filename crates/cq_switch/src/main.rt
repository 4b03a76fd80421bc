//! `cq_switch`, the program: the top call gets the words of the call, the system's files and the standard streams, and
//! the code of its status ends the program.
//!
//! The module exists to be the one place that is given the system, and it decides nothing that the
//! top call's contract speaks of. Codes 0 to 9 are those of the statuses. Code 10 is this file's own.
#![tactic(auto)]

#[cfg(test)]
mod tests;

use cq_crew::OpenGate;
use cq_run::stream_top;
use cq_space::{HostFiles, HostSink};
use cq_stream::OpenWatch;
use std::process::ExitCode;
use std::{env, io};

/// The code where the words could not be had: the system does not give them as text, as where one is
/// not UTF-8, or there was no memory to keep them. It is the code of no status, and nothing is written.
const NO_WORDS: u8 = 10;

/// The words after the program's name.
fn words_of(rt: &HostRuntime) -> io::Result<Vec<String>> {
    let mut words = Vec::new(rt.alloc());
    for word in env::args(rt)?.skip(1) {
        words.push(word)?;
    }
    Ok(words)
}

fn main(rt: HostRuntime) -> ExitCode {
    let Ok(words) = words_of(&rt) else {
        return ExitCode::from(NO_WORDS);
    };
    let mut files = HostFiles::new(rt.alloc(), &rt);
    let mut out = HostSink::new(rt.stdout());
    let mut err = HostSink::new(rt.stderr());
    let status = stream_top(
        rt,
        rt.alloc(),
        &words,
        &mut files,
        &mut out,
        &mut err,
        &OpenGate,
        &OpenWatch,
    );
    ExitCode::from(status.code())
}
