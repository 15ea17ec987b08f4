//! The bytes of a request.

ghost use Rattle.std.specs.Prelude.{◌≡◌, IfOk};
ghost use Rattle.adb_sync.specs.Asks.{IsAsk, ask_bytes};

use adb_outside::{ByteQueue, MAX_ASKED, Text};
use adb_sync::{SyncAsk, write_ask};
use std::alloc::{AllocError, Global};

/// The maximum number of bytes of a path.
pub const MAX_ASKED_PATH: usize = MAX_ASKED;

/// Returns the bytes of a request, to be taken from the start.
pub fn spelled(alloc: Global, ask: &SyncAsk) -> Result<ByteQueue, AllocError>
    requires { IsAsk ask.now }
    ensures { IfOk result (λ queue. queue.bytes ≡ ask_bytes ask.now) }
{
    let mut text = Text::new(alloc);
    write_ask(alloc, ask, &mut text)?;
    Ok(ByteQueue::from_text(text))
}
