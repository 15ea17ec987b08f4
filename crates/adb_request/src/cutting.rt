//! Cutting a client's bytes into requests.

ghost use Rattle.std.specs.Prelude.{◌≡◌, ◌<◌, ◌≤◌, ◌+◌, ℕ, length};
ghost use Rattle.adb_request.specs.Requests.{found_behind, request_at};

use crate::hex::number_of;

/// The beginning of a client's bytes.
#[derive(Clone, Copy, Debug, PartialEq, Eq, Drop)]
pub enum Found {
    /// No whole request yet.
    More,
    /// Four bytes that are no length, or a length of 0.
    Malformed,
    /// A request: its text is the `len` bytes after the first four.
    Whole { len: usize },
}

/// Returns what a client's bytes begin with. Four hexadecimal digits of length and that many bytes
/// of text are a request (OVERVIEW.TXT, "Protocol details"). Only the digits are read.
pub fn cut(bytes: &[u8]) -> Found
    ensures found { result ≡ request_at bytes.now }
    ensures within { (len : ℕ) → result ≡ Found.Whole len →
        (0 < len) × (len ≤ u16.MAX) × (4 + len ≤ length bytes.now) }
{
    match bytes {
        [a, b, c, d, rest @ ..] => behind(number_of(*a, *b, *c, *d), rest.len()),
        _ => Found::More,
    }
}

/// Returns the request of a length if that many bytes follow it.
fn behind(len: Option<u16>, have: usize) -> Found
    ensures found { result ≡ found_behind len have }
    ensures within { (n : ℕ) → result ≡ Found.Whole n → (0 < n) × (n ≤ u16.MAX) × (n ≤ have) }
{
    match len {
        None | Some(0) => Found::Malformed,
        Some(len) if have < usize::from(len) => Found::More,
        Some(len) => Found::Whole {
            len: usize::from(len),
        },
    }
}
