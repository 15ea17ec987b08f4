//! The commands of the shell.

ghost use Rattle.std.specs.Prelude.{◌≡◌, map, IfOk};
ghost use Rattle.std.specs.List.{join_with_byte};
ghost use Rattle.adb_shell_service.specs.Commands.{outcome_of, echo_outcome, cat_outcome, cat_file, list_outcome, list_at};
ghost use Rattle.adb_shell_service.specs.Commands.{remove_outcome, remove_by, exit_outcome, exit_by, status_of, name_lines};

use crate::outcome::{Outcome, bad_words, denied, done, refused};
use crate::program::Program;
use adb_files::{FileError, Files};
use adb_outside::{Text, read_number};
use std::alloc::{AllocError, Global};

/// The maximum number of digits of a status.
const STATUS_DIGITS: usize = 3;

/// Returns the output of a command and its exit status. No file is changed.
pub fn outcome_of(alloc: Global, files: &Files, words: &[&[u8]]) -> Result<Outcome, AllocError>
    ensures { IfOk result (λ outcome. outcome
        ≡ outcome_of files.now (map (λ word. word.now) words.now)) }
{
    match words {
        [] => Ok(done(alloc, Text::new(alloc))),
        [word, arguments @ ..] => match Program::of(word) {
            Some(Program::Echo) => echo(alloc, arguments),
            Some(Program::Cat) => cat(alloc, files, arguments),
            Some(Program::List) => list(alloc, files, arguments),
            Some(Program::Remove) => remove(alloc, files, arguments),
            Some(Program::Exit) => exit(alloc, arguments),
            None => refused(alloc, word, b"not found", 127),
        },
    }
}

/// Writes the arguments back.
fn echo(alloc: Global, arguments: &[&[u8]]) -> Result<Outcome, AllocError>
    ensures { IfOk result (λ outcome. outcome
        ≡ echo_outcome (map (λ word. word.now) arguments.now)) }
{
    let mut stdout = joined(alloc, arguments)?;
    stdout.push_slice(b"\n")?;
    Ok(done(alloc, stdout))
}

/// Returns the words, with a space between each two.
fn joined(alloc: Global, words: &[&[u8]]) -> Result<Text, AllocError>
    ensures { IfOk result (λ text. text ≡ join_with_byte 32 (map (λ word. word.now) words.now)) }
{
    let [first, others @ ..] = words else {
        return Ok(Text::new(alloc));
    };
    let mut text = Text::from_slice(alloc, first)?;
    for word in others {
        text.push_slice(b" ")?;
        text.push_slice(word)?;
    }
    Ok(text)
}

/// Writes a file. Without a path it writes nothing here: the service answers with its input.
fn cat(alloc: Global, files: &Files, arguments: &[&[u8]]) -> Result<Outcome, AllocError>
    ensures { IfOk result (λ outcome. outcome
        ≡ cat_outcome files.now (map (λ word. word.now) arguments.now)) }
{
    match arguments {
        [] => Ok(done(alloc, Text::new(alloc))),
        [path] => cat_file(alloc, files, path),
        _ => bad_words(alloc, b"cat"),
    }
}

/// Writes the bytes of a file.
fn cat_file(alloc: Global, files: &Files, path: &[u8]) -> Result<Outcome, AllocError>
    ensures { IfOk result (λ outcome. outcome ≡ cat_file files.now path.now) }
{
    if let Some(refusal) = files.read_refusal(path) {
        return denied(alloc, b"cat", refusal);
    }
    let mut stdout = Text::new(alloc);
    if let Some(file) = files.get(path) {
        stdout.push_slice(file.bytes.as_slice())?;
    }
    Ok(done(alloc, stdout))
}

/// Writes the names in a directory, or the path of a file.
fn list(alloc: Global, files: &Files, arguments: &[&[u8]]) -> Result<Outcome, AllocError>
    ensures { IfOk result (λ outcome. outcome
        ≡ list_outcome files.now (map (λ word. word.now) arguments.now)) }
{
    match arguments {
        [path] => list_at(alloc, files, path),
        _ => bad_words(alloc, b"ls"),
    }
}

/// Writes the listing of a path.
fn list_at(alloc: Global, files: &Files, path: &[u8]) -> Result<Outcome, AllocError>
    ensures { IfOk result (λ outcome. outcome ≡ list_at files.now path.now) }
{
    if files.is_directory(path) {
        return Ok(done(alloc, name_lines(alloc, files, path)?));
    }
    if let Some(refusal) = files.read_refusal(path) {
        return denied(alloc, b"ls", refusal);
    }
    let mut stdout = Text::from_slice(alloc, path)?;
    stdout.push_slice(b"\n")?;
    Ok(done(alloc, stdout))
}

/// Returns the names in a directory, each with a newline.
fn name_lines(alloc: Global, files: &Files, path: &[u8]) -> Result<Text, AllocError>
    ensures { IfOk result (λ lines. lines ≡ name_lines files.now path.now) }
{
    let mut lines = Text::new(alloc);
    for entry in files.list(path)? {
        lines.push_slice(entry.name.as_slice())?;
        lines.push_slice(b"\n")?;
    }
    Ok(lines)
}

/// Returns the outcome of `rm`: whether the file may be removed. Running the command removes it.
fn remove(alloc: Global, files: &Files, arguments: &[&[u8]]) -> Result<Outcome, AllocError>
    ensures { IfOk result (λ outcome. outcome
        ≡ remove_outcome files.now (map (λ word. word.now) arguments.now)) }
{
    match arguments {
        [path] => remove_by(alloc, files.read_refusal(path)),
        _ => bad_words(alloc, b"rm"),
    }
}

/// Returns the output of `rm`, by the refusal of the path.
fn remove_by(alloc: Global, refusal: Option<FileError>) -> Result<Outcome, AllocError>
    ensures { IfOk result (λ outcome. outcome ≡ remove_by refusal) }
{
    match refusal {
        Some(refusal) => denied(alloc, b"rm", refusal),
        None => Ok(done(alloc, Text::new(alloc))),
    }
}

/// Ends with a status.
fn exit(alloc: Global, arguments: &[&[u8]]) -> Result<Outcome, AllocError>
    ensures { IfOk result (λ outcome. outcome
        ≡ exit_outcome (map (λ word. word.now) arguments.now)) }
{
    match arguments {
        [digits] => exit_by(alloc, status_of(digits)),
        _ => bad_words(alloc, b"exit"),
    }
}

/// Returns the outcome of `exit`, by the status that its word means.
fn exit_by(alloc: Global, status: Option<u8>) -> Result<Outcome, AllocError>
    ensures { IfOk result (λ outcome. outcome ≡ exit_by status) }
{
    match status {
        Some(status) => Ok(Outcome {
            stdout: Text::new(alloc),
            stderr: Text::new(alloc),
            status,
        }),
        None => bad_words(alloc, b"exit"),
    }
}

/// Parses decimal digits as a status: a number of at most 255, without leading zeros.
fn status_of(digits: &[u8]) -> Option<u8>
    ensures { result ≡ status_of digits.now }
{
    if digits.len() > 1 && digits[0] == b'0' {
        return None;
    }
    let status = read_number(digits, STATUS_DIGITS)?;
    if status > 255 {
        return None;
    }
    Some(status as u8)
}
