//! The services that the sessions of a line ask for, and the bytes that they write.

ghost use Rattle.std.specs.Prelude.{◌≡◌, ◌++◌, codes, IfOk};
ghost use Rattle.adb_script.specs.Answers.{end_of_input, service_of, text_of};
ghost use Rattle.adb_script.specs.Lines.{asked_of};
ghost use Rattle.adb_script.specs.Pattern.{pattern};
ghost use Rattle.adb_sync_client.specs.Texts.{push_text};

use crate::line::SessionLine;
use crate::output::CLOSE_STDIN;
use crate::pushing::pattern_text;
use crate::word::Word;
use adb_outside::Text;
use adb_shell::write_packet;
use adb_sync_client::{Entries, PathAsk, PathValue, StatValue};
use std::alloc::{AllocError, Global};

/// The mode of a file that is pushed: a regular file that its owner may write and everyone may
/// read.
pub const FILE_MODE: u32 = 33_188;

impl SessionLine<'_> {
    /// Returns the service that the session asks for.
    pub fn service(&self, alloc: Global) -> Result<Text, AllocError>
        ensures { IfOk result (λ service. service ≡ service_of (asked_of self.now)) }
    {
        match self {
            SessionLine::Push { .. }
            | SessionLine::Pull { .. }
            | SessionLine::Stat { .. }
            | SessionLine::List { .. } => Text::from_slice(alloc, b"sync:"),
            SessionLine::Shell { command } => shell_service(alloc, command),
        }
    }

    /// Returns the text that the session writes if its line has this number.
    pub fn text(&self, alloc: Global, number: u32) -> Result<Text, AllocError>
        ensures { IfOk result (λ text. text ≡ text_of number (asked_of self.now)) }
    {
        match self {
            SessionLine::Push { path, size } => line_text(alloc, path, *size, number),
            SessionLine::Pull { path } => request::<Text>(alloc, path),
            SessionLine::Stat { path } => request::<StatValue>(alloc, path),
            SessionLine::List { path } => request::<Entries>(alloc, path),
            SessionLine::Shell { .. } => end_of_input(alloc),
        }
    }
}

/// Returns the service that runs a command.
fn shell_service(alloc: Global, command: &Word<'_>) -> Result<Text, AllocError>
    ensures { IfOk result (λ service. service ≡ codes "shell,v2,raw:" ++ command.now) }
{
    let mut service = Text::from_slice(alloc, b"shell,v2,raw:")?;
    service.push_slice(command.as_slice())?;
    Ok(service)
}

/// Returns the text of a line's push.
fn line_text(alloc: Global, path: &Word<'_>, size: u32, number: u32) -> Result<Text, AllocError>
    ensures { IfOk result (λ text. text ≡ push_text path.now FILE_MODE number (pattern 0 size)) }
{
    pattern_text(alloc, path.as_slice(), FILE_MODE, number, size)
}

/// Returns the text of a request about a path.
fn request<V: PathValue>(alloc: Global, path: &Word<'_>) -> Result<Text, AllocError>
    ensures { IfOk result (λ text. text ≡ V.text path.now) }
{
    let ask = PathAsk::<V>::new(alloc, path.as_slice())?;
    Text::from_slice(alloc, ask.out())
}

/// Returns the packet that ends a command's input.
fn end_of_input(alloc: Global) -> Result<Text, AllocError>
    ensures { IfOk result (λ text. text ≡ end_of_input) }
{
    let mut text = Text::new(alloc);
    write_packet(alloc, CLOSE_STDIN, b"", &mut text)?;
    Ok(text)
}
