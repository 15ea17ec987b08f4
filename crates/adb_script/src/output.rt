//! The output of a command, from its packets.

ghost use Rattle.std.specs.Prelude.{◌≡◌, ◌++◌, ◌<◌, [], IfOk, OnOk};
ghost use Rattle.adb_script.specs.Answers.{ran_line};
ghost use Rattle.adb_script.specs.Output.{escaped, escaped_byte, hex_digit, output_in, with_packet};
ghost use Rattle.adb_shell.specs.Packets.{StandsFor, packets_in};

use crate::counting::push_number;
use adb_outside::Text;
use adb_shell::{ShellError, ShellPacket, ShellReader};
use std::alloc::{AllocError, Global};

/// The id of a packet of a command's standard output.
pub const STDOUT: u8 = 1;

/// The id of a packet of a command's standard error.
pub const STDERR: u8 = 2;

/// The id of the packet with a command's exit status.
pub const EXIT: u8 = 3;

/// The id of the packet that ends a command's input.
pub const CLOSE_STDIN: u8 = 4;

/// The output of a command, and its exit status if that came.
#[derive(Drop)]
pub struct Output {
    stdout: Text,
    stderr: Text,
    status: Option<u8>,
}

/// Returns the answer line of a command from the bytes of its service, or nothing if no exit status
/// came.
pub fn ran_line(alloc: Global, got: &[u8]) -> Result<Text, AllocError>
    ensures { IfOk result (λ line. line ≡ ran_line (output_in (packets_in got.now))) }
{
    let output = read_output(alloc, got)?;
    print(alloc, &output)
}

/// Returns the printed output of a command.
fn print(alloc: Global, output: &Output) -> Result<Text, AllocError>
    ensures { IfOk result (λ line. line ≡ ran_line output.now) }
{
    let mut line = Text::new(alloc);
    let Some(status) = output.status else {
        return Ok(line);
    };
    line.push_slice(b"shell ")?;
    push_number(&mut line, u128::from(status))?;
    line.push_slice(b" out=")?;
    push_escaped(&mut line, output.stdout.as_slice())?;
    line.push_slice(b" err=")?;
    push_escaped(&mut line, output.stderr.as_slice())?;
    line.push_slice(b"\n")?;
    Ok(line)
}

/// Returns the output of a command, from its packets. A fault after the packets is ignored.
fn read_output(alloc: Global, got: &[u8]) -> Result<Output, AllocError>
    ensures { IfOk result (λ output. output ≡ output_in (packets_in got.now)) }
{
    let mut reader = ShellReader::new(alloc);
    take_in(&mut reader, got)?;
    let mut output = Output {
        stdout: Text::new(alloc),
        stderr: Text::new(alloc),
        status: None,
    };
    while let Some(packet) = reader.next() {
        output.add(&packet)?;
    }
    Ok(output)
}

/// Feeds all bytes to a reader.
fn take_in(reader: &mut ShellReader, got: &[u8]) -> Result<(), AllocError>
    requires { StandsFor [] [] reader.old }
    ensures { OnOk result (reader.new.given ≡ packets_in got.now) }
{
    match reader.feed(got) {
        Ok(()) | Err(ShellError::BadId { .. } | ShellError::TooLong { .. }) => Ok(()),
        Err(ShellError::OutOfMemory) => Err(AllocError),
    }
}

impl Output {
    /// Appends the contents of a packet.
    fn add(&mut self, packet: &ShellPacket) -> Result<(), AllocError>
        ensures { OnOk result (self.new ≡ with_packet self.old packet.now) }
    {
        match packet.id {
            STDOUT => self.stdout.push_slice(packet.bytes.as_slice()),
            STDERR => self.stderr.push_slice(packet.bytes.as_slice()),
            EXIT => {
                if self.status.is_none() {
                    self.status = packet.bytes.as_slice().first().copied();
                }
                Ok(())
            }
            _ => Ok(()),
        }
    }
}

/// Appends bytes in printed form: those from 0x20 to 0x7e except the backslash unchanged, and each
/// other one as `\x` and two digits.
pub fn push_escaped(line: &mut Text, bytes: &[u8]) -> Result<(), AllocError>
    ensures { OnOk result (line.new ≡ line.old ++ escaped bytes.now) }
{
    for byte in bytes {
        push_escaped_byte(line, *byte)?;
    }
    Ok(())
}

/// Appends a byte in printed form.
fn push_escaped_byte(line: &mut Text, byte: u8) -> Result<(), AllocError>
    ensures { OnOk result (line.new ≡ line.old ++ escaped_byte byte) }
{
    if (0x20..0x7f).contains(&byte) && byte != b'\\' {
        line.push_slice(&[byte])
    } else {
        line.push_slice(&[b'\\', b'x', hex_digit(byte / 16), hex_digit(byte % 16)])
    }
}

/// Returns a hexadecimal digit.
fn hex_digit(digit: u8) -> u8
    requires { digit < 16 }
    ensures { result ≡ hex_digit digit }
{
    if digit < 10 {
        b'0' + digit
    } else {
        b'a' + (digit - 10)
    }
}
