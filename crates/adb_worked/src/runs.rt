//! The printed ends of runs of the program's commands.

ghost use Rattle.std.specs.Prelude.{◌≡◌, ◌≤◌, ℕ, IfOk};
ghost use Rattle.adb_worked.specs.Told.{told_as};

use adb_check::{Judgement, judge_capture};
use adb_outside::{MemorySink, MemorySource, Text};
use adb_top::{Status, run_alone};
use itoa::Buffer;
use std::alloc::{AllocError, Global};

/// Replays a capture from a source that yields at most `piece` bytes a call. Returns the printed
/// end of the replay, which includes that the written history is not legal if a judge finds that.
pub fn replay_told(alloc: Global, capture: &[u8], piece: usize) -> Result<Text, AllocError>
    requires { 1 ≤ piece }
{
    let mut words = Vec::new(alloc);
    words.push(String::from_str(alloc, "replay")?)?;
    run(alloc, words.as_slice(), capture, piece, true)
}

/// Runs words over a capture from a source that yields at most `piece` bytes a call. Returns the
/// printed status, the note and the written bytes.
pub fn run_told(
    alloc: Global,
    words: &[String],
    capture: &[u8],
    piece: usize,
) -> Result<Text, AllocError>
    requires { 1 ≤ piece }
{
    run(alloc, words, capture, piece, false)
}

fn run(
    alloc: Global,
    words: &[String],
    capture: &[u8],
    piece: usize,
    is_judged: bool,
) -> Result<Text, AllocError>
    requires { 1 ≤ piece }
{
    let bytes = Text::from_slice(alloc, capture)?;
    let mut source = MemorySource::new(bytes, piece, Vec::new(alloc));
    run_over(alloc, words, &mut source, is_judged)
}

fn run_over(
    alloc: Global,
    words: &[String],
    source: &mut MemorySource,
    is_judged: bool,
) -> Result<Text, AllocError> {
    let mut sink = MemorySink::new(alloc, Vec::new(alloc));
    let mut note = MemorySink::new(alloc, Vec::new(alloc));
    let status = run_alone(alloc, words, source, &mut sink, &mut note);
    tell(alloc, status, note.bytes(), sink.bytes(), is_judged)
}

fn tell(
    alloc: Global,
    status: Status,
    note: &[u8],
    written: &[u8],
    is_judged: bool,
) -> Result<Text, AllocError> {
    let mut told = spell(alloc, status, note, written)?;
    if is_judged && !is_legal(alloc, written)? {
        told.push_slice(b"not legal\n")?;
    }
    Ok(told)
}

/// Returns whether a capture is that of a legal history, or of none.
fn is_legal(alloc: Global, capture: &[u8]) -> Result<bool, AllocError> {
    if capture.is_empty() {
        return Ok(true);
    }
    let bytes = Text::from_slice(alloc, capture)?;
    let mut source = MemorySource::new(bytes, capture.len(), Vec::new(alloc));
    Ok(judges_legal(alloc, &mut source))
}

fn judges_legal(alloc: Global, source: &mut MemorySource) -> bool {
    matches!(judge_capture(alloc, source), Ok(Judgement::Legal { .. }))
}

/// Returns a line with the status, the note, an empty line and the written bytes.
fn spell(alloc: Global, status: Status, note: &[u8], written: &[u8]) -> Result<Text, AllocError>
    ensures { IfOk result (λ text. text ≡ told_as status note.now written.now) }
{
    let mut digits = Buffer::new();
    let mut text = Text::from_slice(alloc, b"status ")?;
    text.push_slice(digits.format(status.code()).as_bytes())?;
    text.push_slice(b"\n")?;
    text.push_slice(note)?;
    text.push_slice(b"\n")?;
    text.push_slice(written)?;
    Ok(text)
}
