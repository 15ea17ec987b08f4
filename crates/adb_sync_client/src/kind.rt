//! The grammar of the answer to a request, byte by byte.

ghost use Rattle.std.specs.Prelude.{◌≡◌, ◌≤◌, length};
ghost use Rattle.adb_sync_client.specs.Expected.{begins, begins_chunk, may_begin, stray_in};

use adb_sync::MAX_CHUNK;
use byteorder::{ByteOrder, LittleEndian};

/// The number of bytes of an id and of the number after it.
const HEAD_BYTES: usize = 8;

/// The kind of a request, by its answer (SYNC.TXT). Each may be answered by a FAIL, at any place
/// where an answer begins.
#[derive(Clone, Copy, Debug, PartialEq, Eq)]
pub enum AnswerKind {
    /// SEND: an OKAY.
    Push,
    /// RECV: any number of DATA, and a DONE.
    Pull,
    /// STAT: a STAT.
    Stat,
    /// LIST: any number of DENT, and the DONE of a list.
    List,
}

impl AnswerKind {
    /// Returns the place of the first byte after which no answer of this kind can follow. Such a
    /// byte is in an id, or in the length of a DATA.
    pub fn stray(self, bytes: &[u8]) -> Option<usize>
        ensures { result ≡ stray_in self bytes.now }
    {
        let size = HEAD_BYTES.min(bytes.len());
        for place in 0..size {
            if !self.may_begin(&bytes[..place + 1]) {
                return Some(place);
            }
        }
        None
    }

    /// Returns whether an answer of this kind may begin with these bytes.
    fn may_begin(self, head: &[u8]) -> bool
        requires { length head.now ≤ 8 }
        ensures { result ≡ may_begin self head.now }
    {
        let goes_on = match self {
            AnswerKind::Push => begins(head, b"OKAY"),
            AnswerKind::Pull => is_chunk_head(head) || begins(head, b"DONE"),
            AnswerKind::Stat => begins(head, b"STAT"),
            AnswerKind::List => begins(head, b"DENT") || begins(head, b"DONE"),
        };
        goes_on || begins(head, b"FAIL")
    }
}

/// Returns whether the first bytes are those of an id, as far as they go.
fn begins(head: &[u8], id: &[u8; 4]) -> bool
    ensures { result ≡ begins id.now head.now }
{
    let size = head.len().min(id.len());
    head[..size] == id[..size]
}

/// Returns whether the first bytes are those of a DATA that is not too long, as far as they go.
/// With zeros for the missing bytes, its length is the least that can follow.
fn is_chunk_head(head: &[u8]) -> bool
    requires { length head.now ≤ 8 }
    ensures { result ≡ begins_chunk head.now }
{
    let mut whole = [0; HEAD_BYTES];
    whole[..head.len()].copy_from_slice(head);
    begins(head, b"DATA") && LittleEndian::read_u32(&whole[4..]) <= MAX_CHUNK
}
