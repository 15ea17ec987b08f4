//! The text of a SEND.

ghost use Rattle.std.specs.Prelude.{◌≡◌, ◌<◌, length, IfOk, IfSome};
ghost use Rattle.adb_sync.specs.Messages.{last_comma};
ghost use Rattle.adb_sync.specs.Asks.{send_cut};

use crate::ask::SyncAsk;
use adb_outside::Text;
use bstr::ByteSlice;
use std::alloc::{AllocError, Global};

/// Returns the place of the last comma.
pub fn last_comma_of(text: &[u8]) -> Option<usize>
    ensures place { result ≡ last_comma text.now }
    ensures within { IfSome result (λ comma. comma < length text.now) }
{
    text.rfind_byte(b',')
}

/// Returns the request of a text, cut at its last comma. A text without one is all path.
pub fn send_of(alloc: Global, text: &[u8]) -> Result<SyncAsk, AllocError>
    ensures { IfOk result (λ ask. ask ≡ send_cut text.now (last_comma text.now)) }
{
    let (path, mode) = match last_comma_of(text) {
        Some(comma) => (&text[..comma], &text[comma + 1..]),
        None => (text, b"".as_slice()),
    };
    Ok(SyncAsk::Send {
        path: Text::from_slice(alloc, path)?,
        mode: Text::from_slice(alloc, mode)?,
    })
}
