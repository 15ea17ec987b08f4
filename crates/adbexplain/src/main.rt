//! `adbexplain`: the effect of each entry of a history, and the streams that it ended.
#![tactic(auto)]

use adb_explain::start;
use adb_os_streams::Stream;
use std::process::ExitCode;
use std::{env, io};

/// Explains the history on standard input, and exits with the status's code.
fn main(rt: HostRuntime) -> ExitCode {
    let mut source = Stream::new(rt.stdin());
    let mut sink = Stream::new(rt.stdout());
    let mut note = Stream::new(rt.stderr());
    let arguments = arguments(&rt);
    let status = start(rt.alloc(), arguments, &mut source, &mut sink, &mut note);
    ExitCode::from(status.code())
}

/// Returns the program's name and the words after it. A word that is not UTF-8 is an error.
fn arguments(rt: &HostRuntime) -> io::Result<Vec<String>> {
    Ok(env::args(rt)?.collect(rt.alloc())?)
}
