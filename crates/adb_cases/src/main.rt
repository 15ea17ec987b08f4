//! Tries the properties that neither a clause nor a worked text covers, and prints for each case
//! whether it holds.
#![tactic(auto)]

mod case;
mod client;
mod copying;
mod failing;
mod files;
mod forward;
mod frames;
mod input;
mod laws;
mod link;
mod load;
mod recorders;
mod records;
mod sessions;
mod touched;

use case::{CASES, Case};
use std::io;
use std::process::ExitCode;

/// Prints a line for each case. Exits with status 1 if one does not hold.
fn main(rt: HostRuntime) -> io::Result<ExitCode> {
    laws::are_laws();
    let mut code = ExitCode::SUCCESS;
    for &case in CASES {
        let fault = case.first_fault(rt, rt.alloc())?;
        tell(&rt, case, fault)?;
        if fault.is_some() {
            code = ExitCode::FAILURE;
        }
    }
    Ok(code)
}

/// Prints that a case holds, or the first of its rows that does not.
fn tell(rt: &HostRuntime, case: Case, fault: Option<usize>) -> io::Result<()> {
    match fault {
        None => println!(rt; "{case:?}: holds"),
        Some(row) => println!(rt; "{case:?}: row {row} does not hold"),
    }
}
