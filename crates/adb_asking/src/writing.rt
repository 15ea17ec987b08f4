//! Writing of bytes to a sink.

ghost use Rattle.std.specs.Prelude.{◌++◌};
ghost use Rattle.adb_asking.specs.Writing.{Puts};

use adb_outside::{Sink, Wrote};

/// Writes bytes, if there are any. Returns whether all were written.
pub fn put<K: Sink>(sink: &mut K, bytes: &[u8]) -> bool
    ensures { Puts K.steady K.faults K.written bytes.now sink.old sink.new result }
{
    if bytes.is_empty() {
        return true;
    }
    match sink.write(bytes) {
        Wrote::All => true,
        Wrote::Failed { taken: _ } => false,
    }
}

/// Writes bytes, then others. Returns whether all were written.
pub fn put_both<K: Sink>(sink: &mut K, first: &[u8], second: &[u8]) -> bool
    ensures { Puts K.steady K.faults K.written (first.now ++ second.now) sink.old sink.new result }
{
    if !put(sink, first) {
        return false;
    }
    put(sink, second)
}
