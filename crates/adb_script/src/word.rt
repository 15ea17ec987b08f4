//! Paths and commands.

ghost use Rattle.std.specs.Prelude.{◌≡◌, ◌≤◌, if◌then◌else◌, Some, None, length};
ghost use Rattle.adb_script.specs.Lines.{is_word};

use adb_outside::MAX_ASKED;
use std::marker::Model;

/// The maximum number of bytes of a path, and of a command.
pub const MAX_WORD: usize = MAX_ASKED;

/// A path or a command of a line: 1 to 1,000 bytes of the script. Contracts see those bytes.
#[derive(Drop)]
pub struct Word<'a> {
    bytes: &'a [u8],
}

impl<'a> Model for Word<'a> {
    ghost use Rattle.std.specs.Prelude.{◌≤◌, List, ℕ, length};
    ghost use Rattle.adb_script.specs.declared.word.TheConstants.{MAX_WORD};

    ghost Value = { List ℕ };

    ghost view = { λ word. word.bytes.now };

    ghost invariant = { λ word. length word.bytes.now ≤ MAX_WORD };
}

impl<'a> Word<'a> {
    /// Returns the word of these bytes. `None` exactly if there are no bytes, or too many.
    pub fn read(bytes: &'a [u8]) -> Option<Word<'a>>
        ensures { result ≡ (if is_word bytes.now then Some bytes.now else None) }
    {
        if bytes.is_empty() || bytes.len() > MAX_WORD {
            return None;
        }
        Some(Word { bytes })
    }

    /// Returns the bytes of the word.
    pub fn as_slice(&self) -> &[u8]
        ensures bytes { result.now ≡ self.now }
        ensures short { length self.now ≤ MAX_WORD }
    {
        self.bytes
    }
}
