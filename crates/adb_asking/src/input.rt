//! The input of a tool.

ghost use Rattle.std.specs.Prelude.{◌≡◌, ◌≤◌, length, IfOk};
ghost use Rattle.adb_outside.specs.Outside.{Counts};
ghost use Rattle.adb_asking.specs.Input.{ReadsInput, ReadsPiece, is_input_fault, is_piece_fault};

use adb_outside::{Got, Source, Text};
use std::alloc::{AllocError, Global};

/// The maximum number of bytes that a tool sends.
pub const MAX_INPUT: usize = 16_777_216;

/// States that the constant has the value of the specification.
pub fn limits_are()
    ensures input { MAX_INPUT ≡ 16777216 }
{}

/// The maximum number of bytes of one read.
const PIECE: usize = 65_536;

/// The reason why there is no input.
#[derive(Clone, Copy, Debug, PartialEq, Eq, Drop)]
pub enum InputError {
    /// A read failed.
    ReadFault,
    /// There are more than `MAX_INPUT` bytes.
    TooLarge,
    /// An allocation failed.
    OutOfMemory,
}

impl From<AllocError> for InputError {
    ghost use Rattle.std.specs.Prelude.{◌≡◌};
    ghost use Rattle.adb_asking.specs.declared.input.InputError.TheVariants.{OutOfMemory};

    ghost from_gives = { λ _ error. error ≡ OutOfMemory };

    fn from(_: AllocError) -> InputError {
        InputError::OutOfMemory
    }
}

/// Reads a source to its end, at most `MAX_INPUT` bytes.
///
/// - `ReadFault`: a read failed.
/// - `TooLarge`: the source has more than `MAX_INPUT` bytes.
/// - `OutOfMemory`: an allocation failed.
pub fn read_input<S: Source>(alloc: Global, source: &mut S) -> Result<Text, InputError>
    ensures size { IfOk result (λ text. length text ≤ MAX_INPUT) }
    ensures told { ReadsInput (S.left source.old) (S.left source.new) result }
    ensures counts { Counts S.steady S.faults source.old source.new (is_input_fault result) }
{
    let mut text = Text::new(alloc);
    let mut buffer = [0u8; PIECE];
    while read_piece(source, &mut text, &mut buffer)? {}
    Ok(text)
}

/// Appends a piece of the source to a text, if any bytes are left.
fn read_piece<S: Source>(
    source: &mut S,
    text: &mut Text,
    buffer: &mut [u8; PIECE],
) -> Result<bool, InputError>
    requires { length text.old ≤ MAX_INPUT }
    ensures size { length text.new ≤ MAX_INPUT }
    ensures told { ReadsPiece (S.left source.old) (S.left source.new) text.old text.new result }
    ensures counts { Counts S.steady S.faults source.old source.new (is_piece_fault result) }
{
    match source.read(buffer) {
        Got::Bytes(n) => {
            if n > MAX_INPUT - text.len() {
                return Err(InputError::TooLarge);
            }
            text.push_slice(&buffer[..n])?;
            Ok(true)
        }
        Got::End => Ok(false),
        Got::Failed => Err(InputError::ReadFault),
    }
}
