//! Encoding the output of a command.

ghost use Rattle.std.specs.Prelude.{◌≡◌, ◌≤◌, ◌++◌, IfOk, OnOk};
ghost use Rattle.adb_shell_service.specs.Output.{output_bytes, exit_bytes, spelled};

use crate::outcome::Outcome;
use adb_outside::Text;
use adb_shell::write_packet;
use std::alloc::{AllocError, Global};

/// The id of a packet of the command's input.
pub const STDIN: u8 = 0;

/// The id of a packet of the command's output.
pub const STDOUT: u8 = 1;

/// The id of a packet of the command's error output.
pub const STDERR: u8 = 2;

/// The id of the packet with the command's status.
pub const EXIT: u8 = 3;

/// The id of the packet that ends the command's input.
pub const CLOSE_STDIN: u8 = 4;

/// The maximum number of bytes of output in one packet.
pub const MAX_OUTPUT: usize = 65_536;

/// Appends output as packets. If an allocation fails, the first of them may have been appended.
pub fn add_output(alloc: Global, id: u8, bytes: &[u8], out: &mut Text) -> Result<(), AllocError>
    requires { id ≤ 5 }
    ensures { OnOk result (out.new ≡ out.old ++ output_bytes id bytes.now) }
{
    let mut rest = bytes;
    while !rest.is_empty() {
        let (first, others) = rest.split_at(MAX_OUTPUT.min(rest.len()));
        write_packet(alloc, id, first, out)?;
        rest = others;
    }
    Ok(())
}

/// Appends the packet with the status. If an allocation fails, nothing is appended.
pub fn add_exit(alloc: Global, status: u8, out: &mut Text) -> Result<(), AllocError>
    ensures { OnOk result (out.new ≡ out.old ++ exit_bytes status) }
{
    write_packet(alloc, EXIT, &[status], out)
}

/// Returns all that a command writes, followed by its status if the stream consists of packets.
pub fn spelled(alloc: Global, packets: bool, outcome: &Outcome) -> Result<Text, AllocError>
    ensures { IfOk result (λ bytes. bytes ≡ spelled packets outcome.now) }
{
    let mut bytes = Text::new(alloc);
    if packets {
        add_output(alloc, STDOUT, outcome.stdout.as_slice(), &mut bytes)?;
        add_output(alloc, STDERR, outcome.stderr.as_slice(), &mut bytes)?;
        add_exit(alloc, outcome.status, &mut bytes)?;
    } else {
        bytes.push_slice(outcome.stdout.as_slice())?;
        bytes.push_slice(outcome.stderr.as_slice())?;
    }
    Ok(bytes)
}
