//! Plays the worked sessions in the file `sessions` of the working directory, and prints whether
//! each goes as expected.
#![tactic(auto)]

ghost use Rattle.std.specs.Prelude.{◌≤◌};

mod case;
mod meaning;
mod session;

use case::{Case, first_case};
use std::alloc::{AllocError, Global};
use std::process::ExitCode;
use std::{fs, io};

/// Prints a line for each session, in their order. Exits with status 1 if one does not go as
/// expected.
fn main(rt: HostRuntime) -> io::Result<ExitCode> {
    let cases = fs::read(&rt, "sessions")?;
    play(&rt, cases.as_slice())
}

fn play(rt: &HostRuntime, cases: &[u8]) -> io::Result<ExitCode> {
    let mut code = ExitCode::SUCCESS;
    let mut rest = cases;
    for _ in 0..cases.len() {
        if rest.is_empty() {
            break;
        }
        let (case, more) = first_case(rest);
        if !is_told(rt, case)? {
            code = ExitCode::FAILURE;
        }
        rest = more;
    }
    Ok(code)
}

/// Prints and returns whether a session goes as expected.
fn is_told(rt: &HostRuntime, case: Case<'_>) -> io::Result<bool> {
    let goes = goes_as_told(rt.alloc(), case)?;
    let how = if goes { "as told" } else { "not as told" };
    println!(rt; "sessions/{}: {how}", case.name)?;
    Ok(goes)
}

/// Returns whether a session goes as expected if the bytes that it is handed come in pieces of at
/// most 1 byte, of at most 5 bytes, and whole.
fn goes_as_told(alloc: Global, case: Case<'_>) -> Result<bool, AllocError> {
    Ok(goes_by(alloc, case, 1)? && goes_by(alloc, case, 5)? && goes_by(alloc, case, 65_536)?)
}

fn goes_by(alloc: Global, case: Case<'_>, piece: usize) -> Result<bool, AllocError>
    requires { 1 ≤ piece }
{
    let told = session::told(alloc, case, piece)?;
    Ok(told.as_slice() == case.told)
}
