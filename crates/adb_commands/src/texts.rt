//! Lines of text.

ghost use Rattle.std.specs.Prelude.{◌≡◌, ◌++◌, OnOk, decimal};
ghost use Rattle.adb_commands.specs.Loads.{line};

use adb_outside::Text;
use itoa::Buffer;
use std::alloc::AllocError;

/// Appends a line of a name and a number.
#[tactic(auto, unfolding(crate::specs::Loads::line))]
pub fn push_line(text: &mut Text, name: &[u8], number: u64) -> Result<(), AllocError>
    ensures { OnOk result (text.new ≡ text.old ++ line name.now number) }
{
    text.push_slice(name)?;
    push_number(text, number)?;
    text.push_slice(b"\n")
}

/// Appends a number in decimal digits.
pub fn push_number(text: &mut Text, number: u64) -> Result<(), AllocError>
    ensures { OnOk result (text.new ≡ text.old ++ decimal number) }
{
    let mut digits = Buffer::new();
    text.push_slice(digits.format(number).as_bytes())
}
