//! The lines that print the results of a sync service's answers.

use crate::asks::{Ask, What};
use crate::machine::exchange;
use adb_files::Files;
use adb_outside::Text;
use adb_sync::Dirent;
use adb_sync_client::{Entries, List, MAX_ASKED_PATH, Pull, Push, Stat, StatValue, Step};
use itoa::Buffer;
use std::alloc::{AllocError, Global};

/// The mode of a regular file that its owner may write and everyone may read.
const MODE: u32 = 33_188;

/// Asks, and appends a line with the result of the answer.
pub fn tell_answer(
    alloc: Global,
    files: &mut Files,
    ask: &Ask<'_>,
    size: usize,
    line: &mut Text,
) -> Result<(), AllocError> {
    line.push_slice(ask.what.name())?;
    line.push_slice(ask.path)?;
    if ask.path.len() > MAX_ASKED_PATH {
        return line.push_slice(b" too long\n");
    }
    match ask.what {
        What::Push { size: len, mtime } => {
            let content = content(alloc, len)?;
            let machine = Push::new(alloc, ask.path, MODE, mtime, content.as_slice())?;
            push(alloc, machine, files, size, line, len)?;
        }
        What::Pull => pull(alloc, Pull::new(alloc, ask.path)?, files, size, line)?,
        What::Stat => stat(alloc, Stat::new(alloc, ask.path)?, files, size, line)?,
        What::List => list(alloc, List::new(alloc, ask.path)?, files, size, line)?,
    }
    line.push_slice(b"\n")
}

/// Returns the bytes of a file that is pushed: each is its index modulo 251.
fn content(alloc: Global, len: usize) -> Result<Vec<u8>, AllocError> {
    let mut bytes = Vec::with_capacity(alloc, len)?;
    for place in 0..len {
        bytes.push((place % 251) as u8)?;
    }
    Ok(bytes)
}

fn push(
    alloc: Global,
    machine: Push,
    files: &mut Files,
    size: usize,
    line: &mut Text,
    len: usize,
) -> Result<(), AllocError> {
    let step = exchange(alloc, machine, files, size)?;
    tell_push(line, &step, len)
}

fn tell_push(line: &mut Text, step: &Step<()>, len: usize) -> Result<(), AllocError> {
    match step {
        Step::Done(()) => {
            line.push_slice(b" ok")?;
            tell_number(line, b" ", len as u64)
        }
        other => tell_other(line, other),
    }
}

fn pull(
    alloc: Global,
    machine: Pull,
    files: &mut Files,
    size: usize,
    line: &mut Text,
) -> Result<(), AllocError> {
    let step = exchange(alloc, machine, files, size)?;
    tell_pull(line, &step)
}

/// Appends the size of a file, and the sum of its bytes.
fn tell_pull(line: &mut Text, step: &Step<Text>) -> Result<(), AllocError> {
    match step {
        Step::Done(bytes) => {
            line.push_slice(b" ok")?;
            tell_number(line, b" ", bytes.len() as u64)?;
            tell_number(line, b" ", sum_of(bytes.as_slice()))
        }
        other => tell_other(line, other),
    }
}

fn stat(
    alloc: Global,
    machine: Stat,
    files: &mut Files,
    size: usize,
    line: &mut Text,
) -> Result<(), AllocError> {
    let step = exchange(alloc, machine, files, size)?;
    tell_stat(line, &step)
}

fn tell_stat(line: &mut Text, step: &Step<StatValue>) -> Result<(), AllocError> {
    match step {
        Step::Done(told) => tell_numbers(line, b" ", told.mode, told.size, told.mtime),
        other => tell_other(line, other),
    }
}

fn list(
    alloc: Global,
    machine: List,
    files: &mut Files,
    size: usize,
    line: &mut Text,
) -> Result<(), AllocError> {
    let step = exchange(alloc, machine, files, size)?;
    tell_list(line, &step)
}

/// Appends the number of entries, and each of them.
fn tell_list(line: &mut Text, step: &Step<Entries>) -> Result<(), AllocError> {
    match step {
        Step::Done(entries) => tell_entries(line, entries.as_slice()),
        other => tell_other(line, other),
    }
}

fn tell_entries(line: &mut Text, entries: &[Dirent]) -> Result<(), AllocError> {
    tell_number(line, b" ", entries.len() as u64)?;
    for entry in entries {
        line.push_slice(b" ")?;
        line.push_slice(entry.name.as_slice())?;
        tell_numbers(line, b":", entry.mode, entry.size, entry.mtime)?;
    }
    Ok(())
}

/// Appends an answer that is not done.
fn tell_other<V: Drop>(line: &mut Text, step: &Step<V>) -> Result<(), AllocError> {
    match step {
        Step::Refused(text) => {
            line.push_slice(b" refused ")?;
            line.push_slice(text.as_slice())
        }
        Step::BadAnswer { offset } => tell_number(line, b" bad answer at byte ", *offset),
        Step::Done(_) | Step::More => line.push_slice(b" not whole"),
    }
}

fn tell_numbers(
    line: &mut Text,
    before: &[u8],
    mode: u32,
    size: u32,
    mtime: u32,
) -> Result<(), AllocError> {
    tell_number(line, before, u64::from(mode))?;
    tell_number(line, before, u64::from(size))?;
    tell_number(line, before, u64::from(mtime))
}

fn tell_number(line: &mut Text, before: &[u8], number: u64) -> Result<(), AllocError> {
    let mut digits = Buffer::new();
    line.push_slice(before)?;
    line.push_slice(digits.format(number).as_bytes())
}

fn sum_of(bytes: &[u8]) -> u64 {
    bytes
        .iter()
        .fold(0, |sum, byte| u64::from(*byte).saturating_add(sum))
}
