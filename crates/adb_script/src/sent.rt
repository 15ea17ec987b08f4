//! The bytes that pushes and echoes send.

ghost use Rattle.std.specs.Prelude.{◌≡◌, ◌<◌, bytes_eq, IfOk};
ghost use Rattle.adb_script.specs.Pattern.{pattern};

use adb_outside::Text;
use std::alloc::{AllocError, Global};

/// The number of bytes after which the pattern repeats.
const PERIOD: usize = 251;

/// Returns `size` bytes, each of which is (its index + `shift`) mod 251.
pub fn pattern(alloc: Global, shift: u32, size: u32) -> Result<Text, AllocError>
    ensures { IfOk result (λ bytes. bytes ≡ pattern shift size) }
{
    let period = period(shift);
    let size = size as usize;
    let mut bytes = Vec::with_capacity(alloc, size)?;
    while bytes.len() < size {
        let n = PERIOD.min(size - bytes.len());
        bytes.extend_from_slice(&period[..n])?;
    }
    Ok(Text::from_vec(bytes))
}

/// Returns whether bytes are `size` bytes of this pattern.
pub fn is_pattern(bytes: &[u8], shift: u32, size: u32) -> bool
    ensures { result ≡ bytes_eq bytes.now (pattern shift size) }
{
    let period = period(shift);
    if bytes.len() != size as usize {
        return false;
    }
    let mut rest = bytes;
    while !rest.is_empty() {
        let (part, more) = rest.split_at(PERIOD.min(rest.len()));
        if part != &period[..part.len()] {
            return false;
        }
        rest = more;
    }
    true
}

/// Returns the first 251 bytes of the pattern.
fn period(shift: u32) -> [u8; PERIOD]
    ensures { result ≡ pattern shift PERIOD }
{
    let mut bytes = [0; PERIOD];
    for place in 0..PERIOD {
        bytes[place] = ((place + shift as usize) % PERIOD) as u8;
    }
    bytes
}
