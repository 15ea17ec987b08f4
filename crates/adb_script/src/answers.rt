//! The answer lines of sessions.

ghost use Rattle.std.specs.Prelude.{◌≡◌, ◌++◌, codes, decimal, IfOk, OnOk};
ghost use Rattle.std.specs.List.{flat_map};
ghost use Rattle.adb_script.specs.Answers.{entry_word, listed_line, listing_line, printed};
ghost use Rattle.adb_script.specs.Answers.{pulled_line, pushed_line, stat_line};
ghost use Rattle.adb_script.specs.Lines.{asked_of};
ghost use Rattle.adb_sync_client.specs.Values.{push_value};

use crate::asking::FILE_MODE;
use crate::counting::{byte_sum, push_number};
use crate::line::SessionLine;
use crate::output::ran_line;
use crate::whole::read_whole;
use crate::word::Word;
use adb_outside::Text;
use adb_sync::Dirent;
use adb_sync_client::{Entries, PathAsk, PathValue, Push, StatValue, Step};
use std::alloc::{AllocError, Global};

impl SessionLine<'_> {
    /// Returns the answer line, with its newline, of a session that was handed these bytes after
    /// the replies to its requests. Returns nothing for bytes that are no answer.
    pub fn answer(&self, alloc: Global, got: &[u8]) -> Result<Text, AllocError>
        ensures { IfOk result (λ line. line ≡ printed (asked_of self.now) got.now) }
    {
        match self {
            SessionLine::Push { path, size } => {
                let step = push_step(alloc, path, got)?;
                pushed_line(alloc, path.as_slice(), *size, &step)
            }
            SessionLine::Pull { path } => {
                let step = path_step::<Text>(alloc, path, got)?;
                pulled_line(alloc, path.as_slice(), &step)
            }
            SessionLine::Stat { path } => {
                let step = path_step::<StatValue>(alloc, path, got)?;
                stat_line(alloc, path.as_slice(), &step)
            }
            SessionLine::List { path } => {
                let step = path_step::<Entries>(alloc, path, got)?;
                listed_line(alloc, path.as_slice(), &step)
            }
            SessionLine::Shell { .. } => ran_line(alloc, got),
        }
    }
}

/// Returns the meaning of the answer to a push.
fn push_step(alloc: Global, path: &Word<'_>, got: &[u8]) -> Result<Step<()>, AllocError>
    ensures { IfOk result (λ step. step ≡ push_value got.now) }
{
    let mut push = Push::new(alloc, path.as_slice(), FILE_MODE, 0, b"")?;
    let step = push.feed(got)?;
    Ok(step)
}

/// Returns the meaning of the answer to a request about a path.
fn path_step<V: PathValue>(
    alloc: Global,
    path: &Word<'_>,
    got: &[u8],
) -> Result<Step<V>, AllocError>
    ensures { IfOk result (λ step. step ≡ V.value got.now) }
{
    let mut ask = PathAsk::<V>::new(alloc, path.as_slice())?;
    let step = read_whole(&mut ask, got)?;
    Ok(step)
}

/// Returns the answer line of a push.
fn pushed_line(alloc: Global, path: &[u8], size: u32, step: &Step<()>) -> Result<Text, AllocError>
    ensures { IfOk result (λ line. line ≡ pushed_line path.now size step.now) }
{
    match step {
        Step::Done(()) => {
            let mut line = begun(alloc, b"push ", path)?;
            line.push_slice(b" ok ")?;
            push_number(&mut line, u128::from(size))?;
            line.push_slice(b"\n")?;
            Ok(line)
        }
        Step::Refused(why) => refused(alloc, b"push ", path, why.as_slice()),
        Step::More | Step::BadAnswer { .. } => Ok(Text::new(alloc)),
    }
}

/// Returns the answer line of a pull.
fn pulled_line(alloc: Global, path: &[u8], step: &Step<Text>) -> Result<Text, AllocError>
    ensures { IfOk result (λ line. line ≡ pulled_line path.now step.now) }
{
    match step {
        Step::Done(bytes) => {
            let mut line = begun(alloc, b"pull ", path)?;
            line.push_slice(b" ok ")?;
            push_number(&mut line, bytes.len() as u128)?;
            line.push_slice(b" ")?;
            push_number(&mut line, byte_sum(bytes.as_slice()))?;
            line.push_slice(b"\n")?;
            Ok(line)
        }
        Step::Refused(why) => refused(alloc, b"pull ", path, why.as_slice()),
        Step::More | Step::BadAnswer { .. } => Ok(Text::new(alloc)),
    }
}

/// Returns the answer line of a stat.
fn stat_line(alloc: Global, path: &[u8], step: &Step<StatValue>) -> Result<Text, AllocError>
    ensures { IfOk result (λ line. line ≡ stat_line path.now step.now) }
{
    match step {
        Step::Done(found) => {
            let mut line = begun(alloc, b"stat ", path)?;
            push_behind(&mut line, b" ", found.mode)?;
            push_behind(&mut line, b" ", found.size)?;
            push_behind(&mut line, b" ", found.mtime)?;
            line.push_slice(b"\n")?;
            Ok(line)
        }
        Step::Refused(_) | Step::More | Step::BadAnswer { .. } => Ok(Text::new(alloc)),
    }
}

/// Returns the answer line of a list.
fn listed_line(alloc: Global, path: &[u8], step: &Step<Entries>) -> Result<Text, AllocError>
    ensures { IfOk result (λ line. line ≡ listed_line path.now step.now) }
{
    match step {
        Step::Done(entries) => listing(alloc, path, entries.as_slice()),
        Step::Refused(_) | Step::More | Step::BadAnswer { .. } => Ok(Text::new(alloc)),
    }
}

/// Returns the answer line of these entries.
fn listing(alloc: Global, path: &[u8], entries: &[Dirent]) -> Result<Text, AllocError>
    ensures { IfOk result (λ line. line ≡ listing_line path.now entries.now) }
{
    let mut line = begun(alloc, b"list ", path)?;
    line.push_slice(b" ")?;
    push_number(&mut line, entries.len() as u128)?;
    push_entries(&mut line, entries)?;
    line.push_slice(b"\n")?;
    Ok(line)
}

/// Appends entries, with a space before each.
fn push_entries(line: &mut Text, entries: &[Dirent]) -> Result<(), AllocError>
    ensures { OnOk result (line.new ≡ line.old ++ flat_map entry_word entries.now) }
{
    for entry in entries {
        push_entry(line, entry)?;
    }
    Ok(())
}

/// Appends a space and an entry.
fn push_entry(line: &mut Text, entry: &Dirent) -> Result<(), AllocError>
    ensures { OnOk result (line.new ≡ line.old ++ entry_word entry.now) }
{
    line.push_slice(b" ")?;
    line.push_slice(entry.name.as_slice())?;
    push_behind(line, b":", entry.mode)?;
    push_behind(line, b":", entry.size)?;
    push_behind(line, b":", entry.mtime)
}

/// Appends a separator and a number.
fn push_behind(line: &mut Text, before: &[u8], number: u32) -> Result<(), AllocError>
    ensures { OnOk result (line.new ≡ line.old ++ before.now ++ decimal number) }
{
    line.push_slice(before)?;
    push_number(line, u128::from(number))
}

/// Returns an answer line up to its path.
fn begun(alloc: Global, name: &[u8], path: &[u8]) -> Result<Text, AllocError>
    ensures { IfOk result (λ line. line ≡ name.now ++ path.now) }
{
    let mut line = Text::from_slice(alloc, name)?;
    line.push_slice(path)?;
    Ok(line)
}

/// Returns the answer line of a refusal.
fn refused(alloc: Global, name: &[u8], path: &[u8], why: &[u8]) -> Result<Text, AllocError>
    ensures { IfOk result (λ line. line ≡ name.now ++ path.now
        ++ codes " refused " ++ why.now ++ codes "\n") }
{
    let mut line = begun(alloc, name, path)?;
    line.push_slice(b" refused ")?;
    line.push_slice(why)?;
    line.push_slice(b"\n")?;
    Ok(line)
}
