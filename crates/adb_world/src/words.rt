//! The bytes that a session writes.

ghost use Rattle.std.specs.Prelude.{◌≡◌, ◌≤◌, ◌++◌, length, take, drop, IfOk};

use adb_outside::{Parts, Text};
use std::alloc::{AllocError, Global};
use std::marker::Model;

/// The requests of a session, and the text after them, which is not copied. Contracts see all their
/// bytes as one list.
#[derive(Drop)]
pub struct Words {
    alloc: Global,
    requests: Text,
    text: Text,
}

impl Model for Words {
    ghost use Rattle.std.specs.Prelude.{◌++◌, List, ℕ};

    ghost Value = { List ℕ };

    ghost view = { λ words. words.requests ++ words.text };
}

impl Words {
    /// Makes the bytes of requests and a text. It allocates nothing.
    pub(crate) fn new(alloc: Global, requests: Text, text: Text) -> Words
        ensures { result ≡ requests ++ text }
    {
        Words {
            alloc,
            requests,
            text,
        }
    }

    /// Returns the number of bytes.
    pub(crate) fn len(&self) -> usize
        ensures { result ≡ length self.now }
    {
        self.requests.as_slice().len() + self.text.as_slice().len()
    }

    /// Returns the bytes after the first `n`, at most `max`, without a copy.
    pub(crate) fn behind(&self, n: usize, max: usize) -> Parts<'_>
        requires { n ≤ length self.now }
        ensures { result.start.now ++ result.rest.now ≡ take max (drop n self.now) }
    {
        let requests = self.requests.as_slice();
        let (gone, start) = requests.split_at(n.min(requests.len()));
        let start = first(start, max);
        let (_, rest) = self.text.as_slice().split_at(n - gone.len());
        Parts {
            start,
            rest: first(rest, max - start.len()),
        }
    }

    /// Returns a copy of two slices, the first before the second.
    pub(crate) fn join(&self, start: &[u8], rest: &[u8]) -> Result<Text, AllocError>
        ensures { IfOk result (λ text. text ≡ start.now ++ rest.now) }
    {
        let mut text = Text::from_slice(self.alloc, start)?;
        text.push_slice(rest)?;
        Ok(text)
    }
}

/// Returns the first bytes, at most `max`.
fn first(bytes: &[u8], max: usize) -> &[u8]
    ensures { result.now ≡ take max bytes.now }
{
    &bytes[..max.min(bytes.len())]
}
