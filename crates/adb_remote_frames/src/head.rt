//! The first bytes of a frame.

ghost use Rattle.std.specs.Prelude.{◌≡◌, ◌≤◌};
ghost use Rattle.adb_remote_frames.specs.Heads.{counted, found, head, is_front, is_lower_hex, says_behind, status_head, whole_of};
ghost use Rattle.std.specs.List.{list_all};

use crate::packets::packet_head;
use adb_outside::Front;
use adb_request::read_hex4;

/// The kind of the next frame of a server.
#[derive(Clone, Copy, Debug, PartialEq, Eq, Drop)]
pub enum Awaited {
    /// A status that is not `OKAY`, which is looked for first: `FAIL` and a string with the reason.
    Status,
    /// A string: its length in four lower-case hexadecimal digits, and that many bytes.
    List,
    /// A packet of a command's output or of its exit status: its id, its length in four bytes,
    /// least significant first, and that many bytes.
    Packet,
}

/// The meaning of the first bytes of a frame.
#[derive(Clone, Copy, Debug, PartialEq, Eq, Drop)]
pub enum Head {
    /// The length is incomplete.
    Short,
    /// No frame begins with these bytes. The last of them is the first such byte.
    Stray,
    /// The whole frame has this many bytes.
    Says(usize),
}

impl Awaited {
    /// Parses the first bytes of a frame, of which every shorter prefix is `Short`.
    pub fn head(self, front: &[u8]) -> Head
        ensures { result ≡ head self front.now }
    {
        match self {
            Awaited::Status => status_head(front),
            Awaited::List => counted(4, front),
            Awaited::Packet => packet_head(front),
        }
    }

    /// Parses the beginning of bytes that are at an offset of the answer. Returns the length of a
    /// whole frame, or the offset of the first byte after which no frame can follow, or `More` if
    /// the frame is incomplete.
    pub fn found(self, offset: u64, bytes: &[u8]) -> Front<u64>
        ensures { result ≡ found self offset bytes.now }
    {
        for place in 0..bytes.len() {
            match self.head(&bytes[..place + 1]) {
                Head::Short => {}
                Head::Stray => return Front::Bad(offset.saturating_add(place as u64)),
                Head::Says(len) => return whole(bytes.len(), len),
            }
        }
        Front::More
    }
}

/// Returns a frame of `len` bytes if at least that many are there.
fn whole(have: usize, len: usize) -> Front<u64>
    ensures { result ≡ whole_of have len }
{
    if have < len {
        Front::More
    } else {
        Front::Whole(len)
    }
}

/// Parses the first bytes of a status that is not `OKAY`.
fn status_head(front: &[u8]) -> Head
    ensures { result ≡ status_head front.now }
{
    if is_front(front, b"OKAY") || is_front(front, b"FAIL") {
        return Head::Short;
    }
    if !front.starts_with(b"FAIL") {
        return Head::Stray;
    }
    counted(8, &front[4..])
}

/// Returns whether bytes are a prefix of a word.
pub(crate) fn is_front(front: &[u8], word: &[u8; 4]) -> bool
    ensures { result ≡ is_front front.now word.now }
{
    word.starts_with(front)
}

/// Parses the digits of the length of a string, in a frame that has `before` bytes besides the
/// string.
fn counted(before: usize, digits: &[u8]) -> Head
    requires { before ≤ 8 }
    ensures { result ≡ counted before digits.now }
{
    if !are_lower_hex(digits) {
        return Head::Stray;
    }
    if digits.len() < 4 {
        return Head::Short;
    }
    says_behind(before, read_hex4(digits))
}

/// Returns the length of a frame that has `before` bytes besides a string of this length.
fn says_behind(before: usize, len: Option<u16>) -> Head
    requires { before ≤ 8 }
    ensures { result ≡ says_behind before len }
{
    match len {
        None => Head::Stray,
        Some(len) => Head::Says(before + usize::from(len)),
    }
}

/// Returns whether bytes are lower-case hexadecimal digits.
fn are_lower_hex(digits: &[u8]) -> bool
    ensures { result ≡ list_all is_lower_hex digits.now }
{
    digits.iter().all(|digit| is_lower_hex(*digit))
}

/// Returns whether a byte is a lower-case hexadecimal digit.
fn is_lower_hex(byte: u8) -> bool
    ensures { result ≡ is_lower_hex byte }
{
    matches!(byte, b'0'..=b'9' | b'a'..=b'f')
}
