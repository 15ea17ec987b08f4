//! Plays each worked text of the working directory, and prints whether it goes as expected.
#![tactic(auto)]

mod answers;
mod asks;
mod commands;
mod exchanges;
mod kind;
mod machine;
mod runs;

use kind::{KINDS, Kind};
use std::process::ExitCode;
use std::{fs, io};

/// Prints a line for each text, in the order of their kinds and names. Exits with status 1 if one
/// does not go as expected.
fn main(rt: HostRuntime) -> io::Result<ExitCode> {
    let mut all = true;
    for kind in KINDS {
        let folder = kind.folder();
        for name in &names(&rt, kind)? {
            if goes_as_told(&rt, kind, name.as_str())? {
                println!(rt; "{folder}/{name}: as told")?;
            } else {
                println!(rt; "{folder}/{name}: not as told")?;
                all = false;
            }
        }
    }
    Ok(if all {
        ExitCode::SUCCESS
    } else {
        ExitCode::FAILURE
    })
}

/// Returns the names of the texts of a kind: those of its files.
fn names(rt: &HostRuntime, kind: Kind) -> io::Result<Vec<String>> {
    let mut names = Vec::new(rt.alloc());
    for entry in fs::read_dir(rt, kind.folder())? {
        if let Some(name) = entry?.file_name().strip_suffix(kind.ending()) {
            names.push(String::from_str(rt.alloc(), name)?)?;
        }
    }
    names.sort()?;
    Ok(names)
}

/// Returns whether a text goes as its file `NAME.told` says, in pieces of each size.
fn goes_as_told(rt: &HostRuntime, kind: Kind, name: &str) -> io::Result<bool> {
    let played = read_file(rt, kind, name, kind.ending())?;
    let want = read_file(rt, kind, name, ".told")?;
    for piece in kind.pieces() {
        let have = kind.told(rt.alloc(), name, played.as_slice(), *piece)?;
        if have.as_slice() != want.as_slice() {
            return Ok(false);
        }
    }
    Ok(true)
}

fn read_file(rt: &HostRuntime, kind: Kind, name: &str, ending: &str) -> io::Result<Vec<u8>> {
    let path = format!(in rt.alloc(); "{}/{name}{ending}", kind.folder())?;
    fs::read(rt, path.as_str())
}
