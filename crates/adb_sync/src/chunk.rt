//! The chunk of some bytes that is being handed out.

ghost use Rattle.std.specs.Prelude.{◌≡◌, ◌≢◌, ◌<◌, ◌≤◌, [], List, ℕ, length, drop};
ghost use Rattle.std.specs.Io.{StartsWith};
ghost use Rattle.adb_sync.specs.Chunk.{IsWithin, HasFront, TakesHere, chunk_bytes, left_from};

use crate::layout::MAX_CHUNK;
use crate::writers::{CHUNK_HEADER_BYTES, chunk_header};

/// One chunk of some bytes that are handed out as DATA, one chunk after another, without a copy:
/// its header, how many bytes of the header were taken, and the range of the chunk's bytes that
/// were not taken yet. The bytes are passed to each call, and are the same each time.
#[derive(Drop)]
pub struct Chunk {
    pub header: [u8; CHUNK_HEADER_BYTES],
    pub header_taken: usize,
    pub from: usize,
    pub to: usize,
}

impl Chunk {
    /// Returns the chunk that begins at `from`. At the end of the bytes the chunk is empty.
    pub fn begin(bytes: &[u8], from: usize) -> Chunk
        requires { from ≤ length bytes.now }
        ensures left { left_from result bytes.now ≡ chunk_bytes (drop from bytes.now) }
        ensures within { IsWithin result bytes.now }
        ensures front { HasFront result bytes.now }
    {
        let size = (MAX_CHUNK as usize).min(bytes.len() - from);
        if size == 0 {
            return Chunk {
                header: [0; CHUNK_HEADER_BYTES],
                header_taken: CHUNK_HEADER_BYTES,
                from,
                to: from,
            };
        }
        Chunk {
            header: chunk_header(size as u32),
            header_taken: 0,
            from,
            to: from + size,
        }
    }

    /// Returns the rest of the header or, once the header was taken, the rest of the chunk.
    pub fn front<'a>(&'a self, bytes: &'a [u8]) -> &'a [u8]
        requires within { IsWithin self.now bytes.now }
        requires front { HasFront self.now bytes.now }
        ensures front { StartsWith (left_from self.now bytes.now) result.now }
        ensures some { left_from self.now bytes.now ≢ [] → result.now ≢ [] }
    {
        if self.header_taken < CHUNK_HEADER_BYTES {
            &self.header[self.header_taken..]
        } else {
            &bytes[self.from..self.to]
        }
    }

    /// Takes at most `n` of the bytes that are left, and returns how many it took. After all of a
    /// chunk was taken, the next one begins.
    pub fn take_front(&mut self, bytes: &[u8], n: usize) -> usize
        requires within { IsWithin self.old bytes.now }
        requires front { HasFront self.old bytes.now }
        ensures most { result ≤ n }
        ensures here { result ≤ length (left_from self.old bytes.now) }
        ensures some { 0 < n → left_from self.old bytes.now ≢ [] → 0 < result }
        ensures left { left_from self.new bytes.now ≡ drop result (left_from self.old bytes.now) }
        ensures within { IsWithin self.new bytes.now }
        ensures front { HasFront self.new bytes.now }
    {
        let taken = self.take_here(n);
        if self.header_taken == CHUNK_HEADER_BYTES && self.from == self.to {
            *self = Chunk::begin(bytes, self.to);
        }
        taken
    }

    /// Takes at most `n` bytes of the rest of the header or, once the header was taken, of the
    /// chunk.
    fn take_here(&mut self, n: usize) -> usize
        requires header { self.old.header_taken ≤ 8 }
        requires from { self.old.from ≤ self.old.to }
        ensures most { result ≤ n }
        ensures takes { (bytes : List ℕ) → IsWithin self.old bytes → HasFront self.old bytes
            → TakesHere n result self.old self.new bytes }
    {
        if self.header_taken < CHUNK_HEADER_BYTES {
            let taken = n.min(CHUNK_HEADER_BYTES - self.header_taken);
            self.header_taken += taken;
            return taken;
        }
        let taken = n.min(self.to - self.from);
        self.from += taken;
        taken
    }
}
