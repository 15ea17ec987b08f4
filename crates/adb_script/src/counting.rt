//! Numbers in answer lines.

ghost use Rattle.std.specs.Prelude.{◌≡◌, ◌≤◌, ◌++◌, decimal, length, sum, OnOk};
ghost use Rattle.adb_script.specs.declared.counting.TheConstants.{PIECE};

use adb_outside::Text;
use itoa::Buffer;
use std::alloc::AllocError;

/// Appends a number in decimal.
pub fn push_number(line: &mut Text, number: u128) -> Result<(), AllocError>
    ensures { OnOk result (line.new ≡ line.old ++ decimal number) }
{
    let mut digits = Buffer::new();
    line.push_slice(digits.format(number).as_bytes())
}

/// The number of bytes that are summed in one 32-bit word.
const PIECE: usize = 65_536;

/// Returns the sum of the bytes.
pub fn byte_sum(bytes: &[u8]) -> u128
    ensures { result ≡ sum bytes.now }
{
    let mut total: u128 = 0;
    let mut rest = bytes;
    while !rest.is_empty() {
        let (piece, more) = rest.split_at(PIECE.min(rest.len()));
        total += u128::from(piece_sum(piece));
        rest = more;
    }
    total
}

/// Returns the sum of the bytes of a piece, in a 32-bit word, so that the processor can add several
/// bytes at once.
fn piece_sum(piece: &[u8]) -> u32
    requires { length piece.now ≤ PIECE }
    ensures { result ≡ sum piece.now }
{
    let mut total = 0;
    for byte in piece {
        total += u32::from(*byte);
    }
    total
}
