//! The matches of the words after a tool's name.

ghost use Rattle.std.specs.Prelude.{◌≡◌, Err, None, IfOk, codes};
ghost use Rattle.clap.specs.Words.{app_of, with_rule};
ghost use Rattle.adb_words.specs.Words.{texts};
ghost use Rattle.adb_words.specs.Apps.{option_rule, port_app, port_only, push_app, serial_app};
ghost use Rattle.adb_words.specs.Apps.{with_serial};
ghost use Rattle.adb_words.specs.Found.{Finds};
ghost use Rattle.adb_words.specs.Given.{given_in};
ghost use Rattle.adb_words.specs.Tools.{layout_named, port_layout, push_layout, serial_layout};

use crate::command::WordsError;
use crate::given::{given_of, port_only, with_operands, with_option};
use clap::{ArgMatches, Command};
use std::alloc::{AllocError, Global};

/// Parses the words after a tool's name. `Usage` means that they are not the words of that tool.
pub fn tool_matches<'a>(
    alloc: Global,
    name: &'a str,
    words: &'a [String],
) -> Result<ArgMatches<'a>, WordsError>
    ensures ok { IfOk result (Finds (layout_named name.entry.now) (texts words.entry.now)) }
    ensures refused { result ≡ Err WordsError.Usage
        → given_in (layout_named name.entry.now) (texts words.entry.now) ≡ None }
{
    match name {
        "push" => push_matches(alloc, words),
        "pull" | "shell" => serial_matches(alloc, name, words),
        _ => port_matches(alloc, name, words),
    }
}

/// Parses the words of a tool that has a port and operands.
fn port_matches<'a>(
    alloc: Global,
    name: &'a str,
    words: &'a [String],
) -> Result<ArgMatches<'a>, WordsError>
    ensures ok { IfOk result (Finds port_layout (texts words.entry.now)) }
    ensures refused { result ≡ Err WordsError.Usage
        → given_in port_layout (texts words.entry.now) ≡ None }
{
    let Ok(command) = port_command(alloc, name) else {
        return Err(WordsError::OutOfMemory);
    };
    given_of(command, &["port"], &[], words)
}

/// Parses the words of a tool that has a port, a serial and operands.
fn serial_matches<'a>(
    alloc: Global,
    name: &'a str,
    words: &'a [String],
) -> Result<ArgMatches<'a>, WordsError>
    ensures ok { IfOk result (Finds serial_layout (texts words.entry.now)) }
    ensures refused { result ≡ Err WordsError.Usage
        → given_in serial_layout (texts words.entry.now) ≡ None }
{
    let Ok(command) = serial_command(alloc, name) else {
        return Err(WordsError::OutOfMemory);
    };
    given_of(command, &["port", "serial"], &[], words)
}

/// Parses the words of `push`, which has a port, a serial, a time and operands.
fn push_matches<'a>(alloc: Global, words: &'a [String]) -> Result<ArgMatches<'a>, WordsError>
    ensures ok { IfOk result (Finds push_layout (texts words.entry.now)) }
    ensures refused { result ≡ Err WordsError.Usage
        → given_in push_layout (texts words.entry.now) ≡ None }
{
    let Ok(command) = push_command(alloc) else {
        return Err(WordsError::OutOfMemory);
    };
    given_of(command, &["port", "serial", "mtime"], &[], words)
}

/// Returns the command that parses a port and operands.
fn port_command<'a>(alloc: Global, name: &'a str) -> Result<Command<'a>, AllocError>
    ensures { IfOk result (λ command. app_of command ≡ port_app name.entry.now) }
{
    with_operands(alloc, port_only(alloc, name)?, "operand")
}

/// Returns the command that parses a port, a serial and operands.
fn serial_command<'a>(alloc: Global, name: &'a str) -> Result<Command<'a>, AllocError>
    ensures { IfOk result (λ command. app_of command ≡ serial_app name.entry.now) }
{
    with_operands(alloc, port_and_serial(alloc, name)?, "operand")
}

/// Returns a command with a port and a serial as its arguments.
fn port_and_serial<'a>(alloc: Global, name: &'a str) -> Result<Command<'a>, AllocError>
    ensures { IfOk result (λ command. app_of command ≡ with_serial (port_only name.entry.now)) }
{
    with_option(alloc, port_only(alloc, name)?, "serial")
}

/// Returns the command that parses the words of `push`.
fn push_command<'a>(alloc: Global) -> Result<Command<'a>, AllocError>
    ensures { IfOk result (λ command. app_of command ≡ push_app) }
{
    with_operands(alloc, push_options(alloc)?, "operand")
}

/// Returns the command with the options of `push`: a port, a serial and a time.
fn push_options<'a>(alloc: Global) -> Result<Command<'a>, AllocError>
    ensures { IfOk result (λ command. app_of command
        ≡ with_rule (with_serial (port_only (codes "push"))) (option_rule (codes "mtime"))) }
{
    with_option(alloc, port_and_serial(alloc, "push")?, "mtime")
}
