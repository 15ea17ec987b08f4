//! Tries the properties of halls that no clause states, and prints for each case whether it holds.
#![tactic(auto)]

mod case;
mod hands;
mod locked_hall;
mod many_waiters;
mod one_desk;
mod waiting;

use case::{CASES, Case};
use std::io;
use std::process::ExitCode;

/// Prints a line for each case. Exits with status 1 if one does not hold.
fn main(rt: HostRuntime) -> io::Result<ExitCode> {
    let mut code = ExitCode::SUCCESS;
    for &case in CASES {
        let fault = case.first_fault(rt, rt.alloc())?;
        report(&rt, case, fault)?;
        if fault.is_some() {
            code = ExitCode::FAILURE;
        }
    }
    Ok(code)
}

/// Prints that a case holds, or the first of its rows that does not.
fn report(rt: &HostRuntime, case: Case, fault: Option<usize>) -> io::Result<()> {
    match fault {
        None => println!(rt; "{case:?}: holds"),
        Some(row) => println!(rt; "{case:?}: row {row} does not hold"),
    }
}
