//! The mode of a SEND.

ghost use Rattle.std.specs.Prelude.{◌≡◌};
ghost use Rattle.adb_files.specs.Served.{stored_mode};

use adb_outside::read_number;

/// The maximum number of digits of a mode.
const MODE_DIGITS: usize = 10;

/// The bits of a file's mode above its lowest nine.
const REGULAR_FILE: u32 = 32_768;

/// Returns the mode that a file keeps, from the digits of a SEND; `None` if they are no mode.
pub fn stored_mode(digits: &[u8]) -> Option<u32>
    ensures { result ≡ stored_mode digits.now }
{
    let mode = read_number(digits, MODE_DIGITS)?;
    if mode > 4_294_967_295 {
        return None;
    }
    Some(REGULAR_FILE + (mode & 511) as u32)
}
