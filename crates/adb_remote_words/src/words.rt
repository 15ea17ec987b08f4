//! The words that a client tool writes.

ghost use Rattle.std.specs.Prelude.{◌≡◌, ◌≤◌, ◌+◌, ◌++◌, length, option_map, IfOk, IfSome};
ghost use Rattle.adb_remote_words.specs.Words.{HasWords, first_word, request_of, second_word, transport_of};

use crate::remote::Remote;
use adb_outside::{MAX_ASKED, Text};
use adb_request::hex4;
use std::alloc::{AllocError, Global};

/// The mode of a file that is pushed: a regular file that its owner may write and everyone may
/// read.
pub const FILE_MODE: u32 = 33_188;

/// The maximum number of bytes of a path, of a command, and of a serial in a request.
pub const MAX_WORD: usize = MAX_ASKED;

/// Returns the first request of a job, on the device with this serial, if one is given.
pub fn first_word(alloc: Global, job: &Remote, on: Option<&Text>) -> Result<Text, AllocError>
    requires { IfSome on (λ serial. length serial.now ≤ MAX_WORD) }
    ensures { IfOk result (λ word. word ≡ first_word job.now (option_map (λ text. text.now) on.entry)) }
{
    match job {
        Remote::Devices => request(alloc, b"host:devices", b""),
        Remote::Wait { .. } => request(alloc, b"host:track-devices", b""),
        Remote::Push { .. } | Remote::Pull { .. } | Remote::Shell { .. } => transport(alloc, on),
    }
}

/// Returns the request that selects the device with a serial, or any device.
fn transport(alloc: Global, on: Option<&Text>) -> Result<Text, AllocError>
    requires { IfSome on (λ serial. length serial.now ≤ MAX_WORD) }
    ensures { IfOk result (λ word. word ≡ transport_of (option_map (λ text. text.now) on.entry)) }
{
    match on {
        None => request(alloc, b"host:transport-any", b""),
        Some(serial) => request(alloc, b"host:transport:", serial.as_slice()),
    }
}

/// Returns the request for a service that follows the first OKAY, or no bytes if none follows.
pub fn second_word(alloc: Global, job: &Remote) -> Result<Text, AllocError>
    requires { HasWords job.now }
    ensures { IfOk result (λ word. word ≡ second_word job.now) }
{
    match job {
        Remote::Devices | Remote::Wait { .. } => Ok(Text::new(alloc)),
        Remote::Push { .. } | Remote::Pull { .. } => request(alloc, b"sync:", b""),
        Remote::Shell { command } => request(alloc, b"shell,v2,raw:", command.as_slice()),
    }
}

/// Returns a request of a text in two parts.
fn request(alloc: Global, front: &[u8], rest: &[u8]) -> Result<Text, AllocError>
    requires { length front.now + length rest.now ≤ 65535 }
    ensures { IfOk result (λ word. word ≡ request_of (front.now ++ rest.now)) }
{
    let mut word = Text::from_slice(alloc, &hex4((front.len() + rest.len()) as u16))?;
    word.push_slice(front)?;
    word.push_slice(rest)?;
    Ok(word)
}
