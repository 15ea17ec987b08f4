//! The payload bytes of a load.

ghost use Rattle.std.specs.Prelude.{◌≡◌, ◌<◌, ◌^◌, IfOk};
ghost use Rattle.adb_load.specs.Acts.{cycle};
ghost use Rattle.adb_load.specs.Patterns.{Prepares};

use std::alloc::{AllocError, Global};
use std::marker::Model;

/// The period of the pattern in bytes.
const PERIOD: u32 = 251;

/// The number of bytes of the pattern that are prepared: from any place within a period on, as many
/// as a `u16` counts.
const PATTERN_LEN: u32 = PERIOD + 65_535;

/// The pattern from which payloads are cut, prepared once: the byte at place i is i mod 251.
/// Contracts see it as its bytes.
#[derive(Drop)]
pub(crate) struct Pattern {
    bytes: Vec<u8>,
}

impl Model for Pattern {
    ghost use Rattle.std.specs.Prelude.{List, ℕ};
    ghost use Rattle.adb_load.specs.Patterns.{Prepares};
    ghost use Rattle.adb_load.specs.declared.patterns.TheConstants.{PATTERN_LEN};

    ghost Value = { List ℕ };

    ghost view = { λ p. p.bytes.items };

    ghost invariant = { λ p. Prepares PATTERN_LEN p.bytes.items };
}

impl Pattern {
    /// Prepares the pattern.
    pub(crate) fn new(alloc: Global) -> Result<Pattern, AllocError> {
        Ok(Pattern {
            bytes: first_bytes(alloc, PATTERN_LEN)?,
        })
    }

    /// Returns `count` bytes from a place on, where the byte at place i is (i + shift) mod 251.
    pub(crate) fn slice(&self, shift: u32, from: u16, count: u16) -> &[u8]
        requires { shift < 2 ^ 17 }
        ensures { result.now ≡ cycle shift from count }
    {
        cut(self.bytes.as_slice(), shift, from, count)
    }
}

/// Returns `count` bytes of the pattern, from the place on at which the bytes from `from` on are in
/// it.
fn cut(bytes: &[u8], shift: u32, from: u16, count: u16) -> &[u8]
    requires prepared { Prepares PATTERN_LEN bytes.now }
    requires small { shift < 2 ^ 17 }
    ensures { result.now ≡ cycle shift from count }
{
    let start = ((u32::from(from) + shift) % PERIOD) as usize;
    &bytes[start..start + usize::from(count)]
}

/// Returns the first bytes of the pattern.
fn first_bytes(alloc: Global, len: u32) -> Result<Vec<u8>, AllocError>
    ensures { IfOk result (λ bytes. Prepares len bytes.items) }
{
    let mut bytes = Vec::with_capacity(alloc, len as usize)?;
    for place in 0..len {
        bytes.push((place % PERIOD) as u8)?;
    }
    Ok(bytes)
}
