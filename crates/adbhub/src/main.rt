//! `adbhub`: the host server of the Android Debug Bridge.
#![tactic(auto)]

use adb_serving::{Stream, start, words_of};
use std::process::ExitCode;
use std::{env, io};

/// Runs the words of the command line over the standard streams, and exits with the status's code.
fn main(rt: HostRuntime) -> ExitCode {
    let mut source = Stream::new(rt.stdin());
    let mut sink = Stream::new(rt.stdout());
    let mut note = Stream::new(rt.stderr());
    let history = Stream::new(rt.stdout());
    let words = words(&rt);
    let alloc = rt.alloc();
    let started = start(rt, alloc, words, &mut source, &mut sink, &mut note, history);
    ExitCode::from(started.status.code())
}

/// Returns the words after the program's name. A word that is not UTF-8 is an error.
fn words(rt: &HostRuntime) -> io::Result<Vec<String>> {
    Ok(words_of(env::args(rt)?.collect(rt.alloc())?))
}
