//! Parsing of the words of the client tools.

ghost use Rattle.std.specs.Prelude.{◌≡◌, ◌≢◌, Err, Some, None, IfOk, IfErr, ok_or, true};
ghost use Rattle.clap.specs.Words.{found_of};
ghost use Rattle.adb_words.specs.Words.{texts};
ghost use Rattle.adb_words.specs.Found.{text_in, texts_in, values_found};
ghost use Rattle.adb_words.specs.Tools.{called_by, devices_of, is_tool, mtime_of, names_tool};
ghost use Rattle.adb_words.specs.Tools.{operand_of, pull_of, push_of, shell_of, state_named};
ghost use Rattle.adb_words.specs.Tools.{tool_by, tool_named, tool_of, wait_of, wanted_of};

use crate::command::{MAX_OPERAND, WordsError};
use crate::given::values_in;
use crate::load::number_within;
use crate::serve::{port_in, serial_in};
use crate::tool_matches::tool_matches;
use adb_outside::{State, Text, is_serial};
use clap::ArgMatches;
use std::alloc::{AllocError, Global};

/// A client tool with its arguments.
#[derive(Drop)]
pub enum Tool {
    /// Lists the devices of a server.
    Devices,
    /// Writes a file to a device, with this time.
    Push {
        path: Text,
        mtime: u32,
        serial: Option<Text>,
    },
    /// Reads a file of a device.
    Pull {
        path: Text,
        serial: Option<Text>,
    },
    /// Runs a command on a device.
    Shell {
        command: Text,
        serial: Option<Text>,
    },
    /// Waits until a device has this state.
    Wait {
        serial: Text,
        state: State,
    },
}

/// A client tool, and the port of the server that it calls.
#[derive(Drop)]
pub struct Call {
    pub port: u16,
    pub tool: Tool,
}

/// Returns whether the first word is the name of a client tool. It allocates nothing.
pub fn names_tool(words: &[String]) -> bool
    ensures { result ≡ names_tool (texts words.now) }
{
    match words {
        [name, ..] => is_tool(name.as_str()),
        [] => false,
    }
}

/// Parses the call of a tool from the words after the program's name.
///
/// - `Usage`: the words are no call of a tool.
/// - `OutOfMemory`: an allocation failed; the words may be no call. It is returned only if the
///   first word is the name of a tool.
pub fn read_tool(alloc: Global, words: &[String]) -> Result<Call, WordsError>
    ensures call { result ≢ Err WordsError.OutOfMemory
        → result ≡ ok_or (tool_of (texts words.now)) WordsError.Usage }
    ensures named { result ≡ Err WordsError.OutOfMemory
        → names_tool (texts words.now) ≡ true }
{
    let [name, words @ ..] = words else {
        return Err(WordsError::Usage);
    };
    if !is_tool(name.as_str()) {
        return Err(WordsError::Usage);
    }
    read_named(alloc, name.as_str(), words)
}

/// Returns whether a name is the name of a tool.
fn is_tool(name: &str) -> bool
    ensures { result ≡ is_tool name.now }
{
    matches!(name, "devices" | "push" | "pull" | "shell" | "wait")
}

/// Parses the call of a tool from its name and the words after it.
fn read_named(alloc: Global, name: &str, words: &[String]) -> Result<Call, WordsError>
    ensures { result ≢ Err WordsError.OutOfMemory
        → result ≡ ok_or (tool_named name.now (texts words.now)) WordsError.Usage }
{
    match tool_matches(alloc, name, words) {
        Ok(matches) => call_in(alloc, name, &matches),
        Err(error) => Err(error),
    }
}

/// Returns the call of the values that were found.
fn call_in(alloc: Global, name: &str, matches: &ArgMatches<'_>) -> Result<Call, WordsError>
    ensures { result ≢ Err WordsError.OutOfMemory
        → result ≡ ok_or (called_by name.now
        (λ id. values_found id (found_of matches.now))) WordsError.Usage }
{
    let port = port_in(values_in(&*matches, "port", &[]), 1)?;
    let operands = values_in(&*matches, "operand", &[]);
    let serials = values_in(&*matches, "serial", &[]);
    let tool = tool_in(
        alloc,
        name,
        operands,
        serials,
        values_in(&*matches, "mtime", &[]),
    )?;
    Ok(Call { port, tool })
}

/// Returns the tool of the values of each name.
fn tool_in(
    alloc: Global,
    name: &str,
    operands: &[&str],
    serials: &[&str],
    mtimes: &[&str],
) -> Result<Tool, WordsError>
    ensures { result ≢ Err WordsError.OutOfMemory
        → result ≡ ok_or (tool_by name.now (texts_in operands.now) (texts_in serials.now)
        (texts_in mtimes.now)) WordsError.Usage }
{
    match name {
        "devices" => devices_in(operands),
        "push" => push_in(alloc, operands, serials, mtimes),
        "pull" => pull_in(alloc, operands, serials),
        "shell" => shell_in(alloc, operands, serials),
        _ => wait_in(alloc, operands),
    }
}

/// Returns `devices`, which has no operand.
fn devices_in(operands: &[&str]) -> Result<Tool, WordsError>
    ensures { result ≡ ok_or (devices_of (texts_in operands.now)) WordsError.Usage }
{
    if !operands.is_empty() {
        return Err(WordsError::Usage);
    }
    Ok(Tool::Devices)
}

/// Returns `push` of a path.
fn push_in(
    alloc: Global,
    operands: &[&str],
    serials: &[&str],
    mtimes: &[&str],
) -> Result<Tool, WordsError>
    ensures { result ≢ Err WordsError.OutOfMemory
        → result ≡ ok_or (push_of (operand_of (texts_in operands.now))
        (mtime_of (texts_in mtimes.now)) (wanted_of (texts_in serials.now))) WordsError.Usage }
{
    let operand = operand_in(operands)?;
    let mtime = mtime_in(mtimes)?;
    let wanted = wanted_in(serials)?;
    let path = Text::from_slice(alloc, operand.as_bytes())?;
    let serial = copy_of(alloc, wanted)?;
    Ok(Tool::Push {
        path,
        mtime,
        serial,
    })
}

/// Returns `pull` of a path.
fn pull_in(alloc: Global, operands: &[&str], serials: &[&str]) -> Result<Tool, WordsError>
    ensures { result ≢ Err WordsError.OutOfMemory
        → result ≡ ok_or (pull_of (operand_of (texts_in operands.now))
        (wanted_of (texts_in serials.now))) WordsError.Usage }
{
    let operand = operand_in(operands)?;
    let wanted = wanted_in(serials)?;
    let path = Text::from_slice(alloc, operand.as_bytes())?;
    let serial = copy_of(alloc, wanted)?;
    Ok(Tool::Pull { path, serial })
}

/// Returns `shell` of a command.
fn shell_in(alloc: Global, operands: &[&str], serials: &[&str]) -> Result<Tool, WordsError>
    ensures { result ≢ Err WordsError.OutOfMemory
        → result ≡ ok_or (shell_of (operand_of (texts_in operands.now))
        (wanted_of (texts_in serials.now))) WordsError.Usage }
{
    let operand = operand_in(operands)?;
    let wanted = wanted_in(serials)?;
    let command = Text::from_slice(alloc, operand.as_bytes())?;
    let serial = copy_of(alloc, wanted)?;
    Ok(Tool::Shell { command, serial })
}

/// Returns `wait` for a serial and a state.
fn wait_in(alloc: Global, operands: &[&str]) -> Result<Tool, WordsError>
    ensures { result ≢ Err WordsError.OutOfMemory
        → result ≡ ok_or (wait_of (texts_in operands.now)) WordsError.Usage }
{
    let [serial, state] = operands else {
        return Err(WordsError::Usage);
    };
    let Some(state) = state_named(state) else {
        return Err(WordsError::Usage);
    };
    let serial = serial_in(alloc, serial)?;
    Ok(Tool::Wait { serial, state })
}

/// Returns the state that a text names.
fn state_named(text: &str) -> Option<State>
    ensures { result ≡ state_named text.now }
{
    match text {
        "offline" => Some(State::Offline),
        "unauthorized" => Some(State::Unauthorized),
        "device" => Some(State::Device),
        "bootloader" => Some(State::Bootloader),
        "recovery" => Some(State::Recovery),
        "sideload" => Some(State::Sideload),
        "rescue" => Some(State::Rescue),
        "host" => Some(State::Host),
        _ => None,
    }
}

/// Returns the only operand: a path or a command.
fn operand_in<'m, 'a>(operands: &'m [&'a str]) -> Result<&'a str, WordsError>
    ensures ok { IfOk result (λ operand. operand_of (texts_in operands.now) ≡ Some operand.now) }
    ensures err { IfErr result (λ error. (error ≡ WordsError.Usage)
        × (operand_of (texts_in operands.now) ≡ None)) }
{
    match operands {
        [operand] if !operand.is_empty() && operand.len() <= MAX_OPERAND => Ok(*operand),
        _ => Err(WordsError::Usage),
    }
}

/// Parses the time of an option that may be given at most once.
fn mtime_in(texts: &[&str]) -> Result<u32, WordsError>
    ensures { result ≡ ok_or (mtime_of (texts_in texts.now)) WordsError.Usage }
{
    match texts {
        [] => Ok(0),
        [text] => match number_within(text, 0, u64::from(u32::MAX)) {
            Some(mtime) => Ok(mtime as u32),
            None => Err(WordsError::Usage),
        },
        _ => Err(WordsError::Usage),
    }
}

/// Returns the serial of an option that may be given at most once.
fn wanted_in<'m, 'a>(texts: &'m [&'a str]) -> Result<Option<&'a str>, WordsError>
    ensures ok { IfOk result (λ wanted.
        wanted_of (texts_in texts.now) ≡ Some (text_in wanted)) }
    ensures err { IfErr result (λ error. (error ≡ WordsError.Usage)
        × (wanted_of (texts_in texts.now) ≡ None)) }
{
    match texts {
        [] => Ok(None),
        [text] if is_serial(text.as_bytes()) => Ok(Some(*text)),
        _ => Err(WordsError::Usage),
    }
}

/// Copies a text, if there is one.
fn copy_of(alloc: Global, text: Option<&str>) -> Result<Option<Text>, AllocError>
    ensures { IfOk result (λ copy. copy ≡ text_in text.entry) }
{
    match text {
        Some(text) => Ok(Some(Text::from_slice(alloc, text.as_bytes())?)),
        None => Ok(None),
    }
}
