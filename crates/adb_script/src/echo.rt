//! Echoes: streams that receive the bytes that they send.

ghost use Rattle.std.specs.Prelude.{◌≡◌, bytes_eq, IfOk};
ghost use Rattle.adb_script.specs.Answers.{echoed_line};
ghost use Rattle.adb_script.specs.Pattern.{pattern};

use crate::counting::push_number;
use crate::line::EchoLine;
use crate::sent::{is_pattern, pattern};
use adb_outside::Text;
use std::alloc::{AllocError, Global};

/// The service that writes back the bytes that it receives.
pub const ECHO_SERVICE: &[u8] = b"echo:";

impl EchoLine {
    /// Returns the bytes that a stream sends, by its number from 0.
    pub fn text(&self, alloc: Global, stream: u32) -> Result<Text, AllocError>
        ensures { IfOk result (λ bytes. bytes ≡ pattern stream self.now.size) }
    {
        pattern(alloc, stream, self.size)
    }

    /// Returns whether a stream received the bytes that it sent.
    pub fn is_echoed(&self, stream: u32, got: &[u8]) -> bool
        ensures { result ≡ bytes_eq got.now (pattern stream self.now.size) }
    {
        is_pattern(got, stream, self.size)
    }

    /// Returns the answer line, with its newline, if each stream received its bytes.
    pub fn answer(&self, alloc: Global) -> Result<Text, AllocError>
        ensures { IfOk result (λ line. line ≡ echoed_line self.now.streams self.now.size) }
    {
        let mut line = Text::from_slice(alloc, b"echo ")?;
        push_number(&mut line, u128::from(self.streams))?;
        line.push_slice(b" ")?;
        push_number(&mut line, u128::from(self.size))?;
        line.push_slice(b" ok\n")?;
        Ok(line)
    }
}
