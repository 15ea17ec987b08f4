//! The first request of a client's bytes.

ghost use Rattle.std.specs.Prelude.{◌≡◌, ◌≤◌, ◌+◌, length, take, drop, IfOk};
ghost use Rattle.adb_client.specs.Ask.{asked_in};

use adb_request::{Found, Request, cut, read};
use std::alloc::{AllocError, Global};

/// The beginning of a client's unread bytes (OVERVIEW.TXT, "Protocol details").
#[derive(Drop)]
pub enum Ask {
    /// No whole request yet.
    More,
    /// Four bytes that are no length, or a length of 0.
    Malformed,
    Whole(Request),
}

/// The beginning of unread bytes, and the number of bytes that the request takes: 0 if there is no
/// whole request.
#[derive(Drop)]
pub struct Asked {
    pub ask: Ask,
    pub len: usize,
}

/// Returns the first request of some bytes. Fails only if the allocation for a text of the request
/// fails.
pub fn ask_in(alloc: Global, bytes: &[u8]) -> Result<Asked, AllocError>
    ensures asked { IfOk result (λ asked. asked ≡ asked_in bytes.now) }
    ensures within { IfOk result (λ asked. asked.len ≤ length bytes.now) }
{
    match cut(bytes) {
        Found::More => Ok(Asked {
            ask: Ask::More,
            len: 0,
        }),
        Found::Malformed => Ok(Asked {
            ask: Ask::Malformed,
            len: 0,
        }),
        Found::Whole { len } => Ok(Asked {
            ask: Ask::Whole(read(alloc, text_of(bytes, len))?),
            len: 4 + len,
        }),
    }
}

/// Returns the text of a whole request: the `len` bytes after the first four.
fn text_of(bytes: &[u8], len: usize) -> &[u8]
    requires { 4 + len ≤ length bytes.now }
    ensures { result.now ≡ take len (drop 4 bytes.now) }
{
    &bytes[4..4 + len]
}
