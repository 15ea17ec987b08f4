//! Whole answers.

ghost use Rattle.std.specs.Prelude.{◌≡◌, ◌++◌, [], List, ℕ, IfOk, OnOk};
ghost use Rattle.adb_sync_client.specs.Reading.{StandsFor};

use adb_sync::WHOLE_CHUNK;
use adb_sync_client::{PathAsk, PathValue, Step};
use std::alloc::AllocError;

/// Returns the meaning of a whole answer to a request, to which nothing was fed before. The bytes
/// are fed in pieces of a whole chunk, so that at most one chunk is in memory in addition to the
/// result, which is moved out.
pub fn read_whole<V: PathValue>(ask: &mut PathAsk<V>, answer: &[u8]) -> Result<Step<V>, AllocError>
    ensures { IfOk result (λ step. StandsFor V.kind [] ask.old.read
        → step ≡ V.value answer.now) }
{
    let mut rest = answer;
    while rest.len() > WHOLE_CHUNK {
        let (piece, more) = rest.split_at(WHOLE_CHUNK);
        feed_piece(ask, piece)?;
        rest = more;
    }
    let step = ask.feed_to_end(rest)?;
    Ok(step)
}

/// Feeds a piece that others follow.
fn feed_piece<V: PathValue>(ask: &mut PathAsk<V>, piece: &[u8]) -> Result<(), AllocError>
    ensures { OnOk result ((fed : List ℕ) → StandsFor V.kind fed ask.old.read
        → StandsFor V.kind (fed ++ piece.now) ask.new.read) }
{
    ask.feed(piece)?;
    Ok(())
}
