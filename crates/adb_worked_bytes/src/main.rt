//! Plays each case of the texts in the working directory, and prints whether it goes as expected.
#![tactic(auto)]

mod banners;
mod cases;
mod kind;
mod reader;
mod requests;
mod shell;
mod slices;
mod sync;
mod telling;
mod wire;

use kind::{KINDS, Kind};
use std::process::ExitCode;
use std::{fs, io};

/// Prints a line for each kind: how many of its cases play as expected, and how many bytes are left
/// after these. Exits with status 1 if any bytes are left.
fn main(rt: HostRuntime) -> io::Result<ExitCode> {
    let mut code = ExitCode::SUCCESS;
    for kind in KINDS {
        if play(&rt, kind)? > 0 {
            code = ExitCode::FAILURE;
        }
    }
    Ok(code)
}

/// Plays the text of a kind and returns how many of its bytes are left.
fn play(rt: &HostRuntime, kind: Kind) -> io::Result<usize> {
    let text = fs::read(rt, kind.file())?;
    tell(rt, kind, text.as_slice())
}

fn tell(rt: &HostRuntime, kind: Kind, text: &[u8]) -> io::Result<usize> {
    let (count, left) = cases::play(rt.alloc(), kind, text)?;
    println!(rt; "{}: {count} cases as told, {left} bytes left", kind.file())?;
    Ok(left)
}
