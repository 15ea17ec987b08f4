//! The lines of a script.

ghost use Rattle.std.specs.Prelude.{◌≡◌, ◌≢◌, ◌≤◌, ◌<◌, ℕ, Some, None, Err, length, map, position, IfOk, OnOk};
ghost use Rattle.adb_script.specs.Lines.{seen};
ghost use Rattle.adb_script.specs.Script.{CutsLine, Reads, first_bad, is_newline, lines_in};

use crate::line::ScriptLine;
use crate::reading::read_line;
use std::alloc::{AllocError, Global};
use std::marker::Model;

/// The maximum number of bytes of a script.
pub const MAX_SCRIPT: usize = 1_048_576;

/// The maximum number of lines of a script.
pub const MAX_LINES: u32 = 1_024;

/// The reason why a script is not read.
#[derive(Clone, Copy, Debug, PartialEq, Eq, Drop)]
pub enum ScriptError {
    /// The number, from 1, of the first line that is refused: one that has no meaning in a script,
    /// line 1,025, or the line with byte 1,048,577 of the script.
    BadLine { line: u32 },
    /// An allocation failed.
    OutOfMemory,
}

impl From<AllocError> for ScriptError {
    ghost use Rattle.std.specs.Prelude.{◌≡◌};
    ghost use Rattle.adb_script.specs.declared.script.ScriptError.TheVariants.{OutOfMemory};

    ghost from_gives = { λ _ error. error ≡ OutOfMemory };

    fn from(_error: AllocError) -> ScriptError {
        ScriptError::OutOfMemory
    }
}

/// The lines of a script, none of which is refused. Contracts see the list of their meanings.
#[derive(Drop)]
pub struct Script<'a> {
    lines: Vec<ScriptLine<'a>>,
}

impl<'a> Model for Script<'a> {
    ghost use Rattle.std.specs.Prelude.{◌≤◌, List, map, length};
    ghost use Rattle.adb_script.specs.Lines.{Line, seen};
    ghost use Rattle.adb_script.specs.declared.script.TheConstants.{MAX_LINES};

    ghost Value = { List Line };

    ghost view = { λ script. map seen script.lines.items };

    ghost invariant = { λ script. length script.lines.items ≤ MAX_LINES };
}

impl<'a> Script<'a> {
    /// Reads a script: lines that end with a newline, which the last line may lack.
    ///
    /// - `BadLine`: a line is refused; the first such line is reported.
    /// - `OutOfMemory`: an allocation failed.
    pub fn read(alloc: Global, script: &'a [u8]) -> Result<Script<'a>, ScriptError>
        ensures lines { IfOk result (λ read. read ≡ lines_in script.now) }
        ensures good { OnOk result (first_bad script.now ≡ None) }
        ensures bad { (line : ℕ) → result ≡ Err (ScriptError.BadLine line)
            → first_bad script.now ≡ Some line }
        ensures told { (line : ℕ) → first_bad script.now ≡ Some line
            → result ≢ Err ScriptError.OutOfMemory → result ≡ Err (ScriptError.BadLine line) }
    {
        let mut lines = Vec::new(alloc);
        let mut rest = script;
        while !rest.is_empty() {
            rest = add_line(&mut lines, script, rest)?;
        }
        Ok(Script { lines })
    }

    /// Returns the lines in order, at most 1,024. The first line has the number 1.
    pub fn lines(&self) -> &[ScriptLine<'a>]
        ensures lines { map seen result.now ≡ self.now }
        ensures few { length result.now ≤ MAX_LINES }
    {
        self.lines.as_slice()
    }
}

/// Reads the first line of the rest of a script, and returns the bytes after it.
fn add_line<'a>(
    lines: &mut Vec<ScriptLine<'a>>,
    script: &[u8],
    rest: &'a [u8],
) -> Result<&'a [u8], ScriptError>
    requires some { 0 < length rest.now }
    requires reads { Reads script.now rest.now (map seen lines.old.items) }
    ensures ok { IfOk result (λ more. Reads script.now more.now (map seen lines.new.items)) }
    ensures less { IfOk result (λ more. length more.now < length rest.now) }
    ensures bad { (line : ℕ) → result ≡ Err (ScriptError.BadLine line)
        → first_bad script.now ≡ Some line }
{
    let (text, more) = split_line(rest);
    let line = lines.len() as u32 + 1;
    if line > MAX_LINES || script.len() - more.len() > MAX_SCRIPT {
        return Err(ScriptError::BadLine { line });
    }
    let Some(read) = read_line(text) else {
        return Err(ScriptError::BadLine { line });
    };
    match lines.push(read) {
        Ok(()) => Ok(more),
        Err(_) => Err(ScriptError::OutOfMemory),
    }
}

/// Returns the first line of a text, without its newline, and the bytes after it.
pub fn split_line(text: &[u8]) -> (&[u8], &[u8])
    requires { 0 < length text.now }
    ensures { CutsLine text.now result.0.now result.1.now }
{
    match newline_in(text) {
        Some(end) => (&text[..end], &text[end + 1..]),
        None => (text, &[]),
    }
}

/// Returns the index of the first newline.
fn newline_in(text: &[u8]) -> Option<usize>
    ensures { result ≡ position is_newline text.now }
{
    text.iter().position(|byte| *byte == b'\n')
}
