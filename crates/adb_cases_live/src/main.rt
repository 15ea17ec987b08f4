//! Cases of a live server and of the crates below it: behavior that no clause states and that the
//! built program does not show. Prints for each case whether it holds.
#![tactic(auto)]

mod binder;
mod calm;
mod case;
mod clients;
mod connections;
mod deliveries;
mod gated;
mod halting;
mod pipes;
mod ports;
mod recording;
mod rows;
mod served;
mod spawner;
mod streams;
mod tools;
mod workers;
mod yard;

use case::{CASES, Case};
use std::io;
use std::process::ExitCode;

/// Prints a line for each case. Exits with status 1 if a case does not hold.
fn main(rt: HostRuntime) -> io::Result<ExitCode> {
    let mut code = ExitCode::SUCCESS;
    for &case in CASES {
        let fault = case.first_fault(rt, rt.alloc())?;
        tell(&rt, case, fault)?;
        if fault.is_some() {
            code = ExitCode::FAILURE;
        }
    }
    Ok(code)
}

/// Prints that a case holds, or the first of its rows that does not.
fn tell(rt: &HostRuntime, case: Case, fault: Option<usize>) -> io::Result<()> {
    match fault {
        None => println!(rt; "{case:?}: holds"),
        Some(row) => println!(rt; "{case:?}: row {row} does not hold"),
    }
}
