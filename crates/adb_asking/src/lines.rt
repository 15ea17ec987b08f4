//! The lines that a tool adds to the server's answer.

ghost use Rattle.std.specs.Prelude.{◌≡◌, ◌++◌, codes, decimal, IfOk};
ghost use Rattle.adb_asking.specs.Lines.{exit_line, pushed_line};

use adb_outside::Text;
use itoa::Buffer;
use std::alloc::{AllocError, Global};

/// Returns the line with the number of bytes that were pushed.
#[tactic(auto, unfolding(crate::specs::Lines::pushed_line))]
pub fn pushed_line(alloc: Global, size: u64) -> Result<Text, AllocError>
    ensures { IfOk result (λ line. line ≡ pushed_line size) }
{
    numbered(alloc, b"pushed ", size)
}

/// Returns the line with the exit status of a command.
#[tactic(auto, unfolding(crate::specs::Lines::exit_line))]
pub fn exit_line(alloc: Global, status: u8) -> Result<Text, AllocError>
    ensures { IfOk result (λ line. line ≡ exit_line status) }
{
    numbered(alloc, b"exit ", u64::from(status))
}

/// Returns a line of a name and a number.
fn numbered(alloc: Global, name: &[u8], number: u64) -> Result<Text, AllocError>
    ensures { IfOk result (λ line. line ≡ name.now ++ decimal number ++ codes "\n") }
{
    let mut line = Text::from_slice(alloc, name)?;
    let mut digits = Buffer::new();
    line.push_slice(digits.format(number).as_bytes())?;
    line.push_slice(b"\n")?;
    Ok(line)
}
