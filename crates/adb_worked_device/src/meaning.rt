//! The meaning of a session's answer for a sync client.

ghost use Rattle.std.specs.Prelude.{◌≤◌, length};
ghost use Rattle.adb_sync_client.specs.declared.request.TheConstants.{MAX_ASKED_PATH};

use adb_outside::Text;
use adb_script::{SessionLine, push_number};
use adb_sync_client::{Entries, PathAsk, PathValue, Push, StatValue, Step};
use std::alloc::{AllocError, Global};

/// The value of an answer.
trait Value: Drop {
    /// Returns the bytes of a file, or none for a value that is printed whole.
    fn bytes(&self) -> &[u8];
}

impl Value for () {
    fn bytes(&self) -> &[u8] {
        b""
    }
}

impl Value for Text {
    fn bytes(&self) -> &[u8] {
        self.as_slice()
    }
}

impl Value for StatValue {
    fn bytes(&self) -> &[u8] {
        b""
    }
}

impl Value for Entries {
    fn bytes(&self) -> &[u8] {
        b""
    }
}

/// Appends a line with the meaning of an answer that comes in pieces of at most `piece` bytes. The
/// answer to a command has no such line.
pub fn tell_meaning(
    alloc: Global,
    session: &SessionLine<'_>,
    answer: &[u8],
    piece: usize,
    told: &mut Text,
) -> Result<(), AllocError>
    requires { 1 ≤ piece }
{
    match session {
        SessionLine::Push { path, .. } => {
            push_meaning(alloc, path.as_slice(), answer, piece, told)
        }
        SessionLine::Pull { path } => {
            meaning::<Text>(alloc, path.as_slice(), answer, piece, told)
        }
        SessionLine::Stat { path } => {
            meaning::<StatValue>(alloc, path.as_slice(), answer, piece, told)
        }
        SessionLine::List { path } => {
            meaning::<Entries>(alloc, path.as_slice(), answer, piece, told)
        }
        SessionLine::Shell { .. } => Ok(()),
    }
}

fn push_meaning(
    alloc: Global,
    path: &[u8],
    answer: &[u8],
    piece: usize,
    told: &mut Text,
) -> Result<(), AllocError>
    requires piece { 1 ≤ piece }
    requires path { length path.now ≤ MAX_ASKED_PATH }
{
    let mut push = Push::new(alloc, path, 33_188, 0, b"")?;
    hear_push(&mut push, answer, piece, told)
}

fn hear_push(
    push: &mut Push,
    answer: &[u8],
    piece: usize,
    told: &mut Text,
) -> Result<(), AllocError>
    requires { 1 ≤ piece }
{
    for part in answer.chunks(piece) {
        push.feed(part)?;
    }
    tell_step(push.feed(b"")?, told)
}

fn meaning<V: PathValue + Value>(
    alloc: Global,
    path: &[u8],
    answer: &[u8],
    piece: usize,
    told: &mut Text,
) -> Result<(), AllocError>
    requires piece { 1 ≤ piece }
    requires path { length path.now ≤ MAX_ASKED_PATH }
{
    let mut ask = PathAsk::<V>::new(alloc, path)?;
    hear(&mut ask, answer, piece, told)
}

fn hear<V: PathValue + Value>(
    ask: &mut PathAsk<V>,
    answer: &[u8],
    piece: usize,
    told: &mut Text,
) -> Result<(), AllocError>
    requires { 1 ≤ piece }
{
    for part in answer.chunks(piece) {
        ask.feed(part)?;
    }
    tell_step(ask.feed(b"")?, told)
}

fn tell_step<V: Value>(step: Step<V>, told: &mut Text) -> Result<(), AllocError> {
    match &step {
        Step::More => told.push_slice(b"more\n"),
        Step::Done(value) => tell_bytes(b"done ", value.bytes(), told),
        Step::Refused(why) => tell_bytes(b"refused ", why.as_slice(), told),
        Step::BadAnswer { offset } => tell_offset(*offset, told),
    }
}

fn tell_bytes(word: &[u8], bytes: &[u8], told: &mut Text) -> Result<(), AllocError> {
    told.push_slice(word)?;
    told.push_slice(bytes)?;
    told.push_slice(b"\n")
}

fn tell_offset(offset: u64, told: &mut Text) -> Result<(), AllocError> {
    told.push_slice(b"bad answer at byte ")?;
    push_number(told, u128::from(offset))?;
    told.push_slice(b"\n")
}
