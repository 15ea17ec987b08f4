//! Two sessions at the same time.

ghost use Rattle.std.specs.Prelude.{◌≡◌, ◌+◌, ◌≤◌, IfOk, OnOk};

use adb_device_streams::read_service;
use adb_world::{World, settle};
use std::alloc::{AllocError, Global};

/// A service, the bytes that its client writes, and all bytes that the client is handed.
struct Row {
    service: &'static [u8],
    text: &'static [u8],
    got: &'static [u8],
}

const SHELL: Row = Row {
    service: b"shell,v2,raw:echo hi",
    text: b"",
    got: b"OKAYOKAY\x01\x03\0\0\0hi\n\x03\x01\0\0\0\0",
};

const ECHO: Row = Row {
    service: b"echo:",
    text: b"abc",
    got: b"OKAYOKAYabc",
};

/// The last seed: seeds 1 to this one are tried.
const SEEDS: u64 = 20;

/// Starts the session of a row.
fn start(world: &mut World, row: &Row) -> Result<u32, AllocError>
    requires { world.old.given ≤ 1 }
    ensures { OnOk result (world.new.given ≤ world.old.given + 1) }
{
    if row.service.len() > 1024 || read_service(row.service).is_none() {
        return Err(AllocError);
    }
    let number = world.start(row.service, row.text)?;
    Ok(number)
}

/// Returns whether both sessions, at the same time in a new world, are handed their answers.
fn are_answered(alloc: Global, seed: u64) -> Result<bool, AllocError> {
    let mut world = World::new(alloc)?;
    let shell = start(&mut world, &SHELL)?;
    let echo = start(&mut world, &ECHO)?;
    settle(&mut world, seed)?;
    Ok(has(&world, shell, &SHELL) && has(&world, echo, &ECHO))
}

/// Returns whether a session was handed the bytes of its row.
fn has(world: &World, number: u32, row: &Row) -> bool {
    match world.got(number) {
        Some(got) => got == row.got,
        None => false,
    }
}

/// Returns the index of the first seed, counted from 0, with which a session is not answered.
pub fn first_fault(alloc: Global) -> Result<Option<usize>, AllocError> {
    for seed in 1..=SEEDS {
        if !are_answered(alloc, seed)? {
            return Ok(Some(seed as usize - 1));
        }
    }
    Ok(None)
}
