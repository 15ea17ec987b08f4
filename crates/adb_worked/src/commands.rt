//! Runs of commands with any words.

ghost use Rattle.std.specs.Prelude.{◌≤◌};

use crate::runs::run_told;
use adb_outside::Text;
use std::alloc::{AllocError, Global};

/// Runs the words in the first lines of a text, one a line, over the bytes after the empty line
/// that follows them. Returns the printed end of the run.
pub fn told(alloc: Global, played: &[u8], piece: usize) -> Result<Text, AllocError>
    requires { 1 ≤ piece }
{
    let mut words = Vec::new(alloc);
    let mut rest = played;
    for _ in 0..played.len() {
        let (word, more) = first_line(rest);
        rest = more;
        if word.is_empty() {
            break;
        }
        words.push(String::from_str(alloc, str::from_utf8(word).unwrap_or("?"))?)?;
    }
    run_told(alloc, words.as_slice(), rest, piece)
}

/// Returns a text's first line, and the rest after its line end.
fn first_line(text: &[u8]) -> (&[u8], &[u8]) {
    match text.iter().position(|byte| *byte == b'\n') {
        Some(at) => (&text[..at], &text[at + 1..]),
        None => (text, b""),
    }
}
