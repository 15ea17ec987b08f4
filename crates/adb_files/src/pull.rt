//! A file that is handed out in chunks.

ghost use Rattle.std.specs.Prelude.{◌≡◌, ◌≢◌, ◌<◌, ◌≤◌, ◌==◌, [], length, drop};
ghost use Rattle.std.specs.Arc.{arc_value};
ghost use Rattle.std.specs.Io.{StartsWith};
ghost use Rattle.adb_sync.specs.Chunk.{chunk_bytes};

use crate::file::File;
use adb_sync::Chunk;
use std::marker::Model;
use std::sync::Arc;

/// A shared file that is handed out in chunks, without a copy of its bytes. Contracts see it as the
/// bytes that were not taken yet.
#[derive(Drop)]
pub struct Pull {
    file: Arc<File>,
    chunk: Chunk,
}

impl Model for Pull {
    ghost use Rattle.std.specs.Prelude.{List, ℕ};
    ghost use Rattle.std.specs.Arc.{arc_value};
    ghost use Rattle.adb_sync.specs.Chunk.{IsWithin, HasFront, left_from};

    ghost Value = { List ℕ };

    ghost view = { λ pull. left_from pull.chunk (arc_value pull.file).bytes };

    ghost invariant = { λ pull. IsWithin pull.chunk (arc_value pull.file).bytes
        × HasFront pull.chunk (arc_value pull.file).bytes };
}

impl Pull {
    /// Returns all chunks of a file. Allocates nothing.
    pub fn new(file: Arc<File>) -> Pull
        ensures { result ≡ chunk_bytes (arc_value file).bytes }
    {
        let chunk = Chunk::begin(file.bytes.as_slice(), 0);
        Pull { file, chunk }
    }

    /// Returns the first bytes that were not taken yet: at least one if any are left.
    pub fn front(&self) -> &[u8]
        ensures front { StartsWith self.now result.now }
        ensures some { self.now ≢ [] → result.now ≢ [] }
    {
        self.chunk.front(self.file.bytes.as_slice())
    }

    /// Removes at most the first `n` bytes. Returns how many: at least one if any are left.
    /// Allocates nothing.
    pub fn take_front(&mut self, n: usize) -> usize
        ensures most { result ≤ n }
        ensures here { result ≤ length self.old }
        ensures some { 0 < n → self.old ≢ [] → 0 < result }
        ensures left { self.new ≡ drop result self.old }
    {
        self.chunk.take_front(self.file.bytes.as_slice(), n)
    }

    /// Returns whether no byte is left.
    pub fn is_empty(&self) -> bool
        ensures { result ≡ (length self.now == 0) }
    {
        self.front().is_empty()
    }
}
