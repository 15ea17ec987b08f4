//! The job of a tool.

ghost use Rattle.std.specs.Prelude.{◌≡◌};
ghost use Rattle.adb_asking.specs.Telling.{seen};
ghost use Rattle.adb_asking.specs.Jobs.{FitsTool, MakesJob, failed_input};

use crate::ends::ToolEnd;
use crate::input::{InputError, read_input};
use adb_outside::{Source, Text, state_text};
use adb_remote::Remote;
use adb_words::Tool;
use std::alloc::Global;

/// The job for a server, and the serial of the device, if one is selected.
#[derive(Drop)]
pub struct Job {
    pub remote: Remote,
    pub on: Option<Text>,
}

/// Makes the job of a tool. Reads the source, to its end, only for a push.
pub fn make_job<S: Source>(alloc: Global, tool: Tool, source: &mut S) -> Result<Job, InputError>
    requires { FitsTool tool }
    ensures { MakesJob (seen S.steady S.faults S.left) tool source.old source.new result }
{
    let (remote, on) = match tool {
        Tool::Devices => (Remote::Devices, None),
        Tool::Push {
            path,
            mtime,
            serial,
        } => {
            let bytes = read_input(alloc, source)?;
            (Remote::Push { path, mtime, bytes }, serial)
        }
        Tool::Pull { path, serial } => (Remote::Pull { path }, serial),
        Tool::Shell { command, serial } => (Remote::Shell { command }, serial),
        Tool::Wait { serial, state } => {
            let state = Text::from_slice(alloc, state_text(state))?;
            (Remote::Wait { serial, state }, None)
        }
    };
    Ok(Job { remote, on })
}

/// Returns the end of a tool without input.
pub fn failed_input(error: InputError) -> ToolEnd
    ensures { result ≡ failed_input error }
{
    match error {
        InputError::ReadFault => ToolEnd::ReadFault,
        InputError::TooLarge => ToolEnd::TooLarge,
        InputError::OutOfMemory => ToolEnd::OutOfMemory,
    }
}
