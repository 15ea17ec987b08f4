//! The queue of packets to the host.

ghost use Rattle.std.specs.Prelude.{◌≡◌, ◌≤◌, ◌++◌, length, OnOk, OnErr};
ghost use Rattle.adb_wire.specs.Packet.{head_for, check_of};
ghost use Rattle.adb_device_streams.specs.Due.{Grows};
ghost use Rattle.adb_device_streams.specs.Stream.{packet_bytes};

use adb_outside::ByteQueue;
use adb_wire::{HEADER_LEN, Head, MAX_PAYLOAD, Packet, byte_sum, header};
use std::alloc::AllocError;

/// Queues a packet, with the sum of its bytes if `sums` is set. If an allocation fails, the queue
/// is unchanged.
pub fn push_packet(packet: &Packet, sums: bool, due: &mut ByteQueue) -> Result<(), AllocError>
    requires { length packet.now.payload ≤ MAX_PAYLOAD }
    ensures ok { OnOk result (due.new.bytes ≡ due.old.bytes ++ packet_bytes sums packet.now) }
    ensures err { OnErr result (due.new.bytes ≡ due.old.bytes) }
    ensures grows { Grows due.old.bytes due.new.bytes }
{
    let payload = packet.payload.as_slice();
    let mut words = [0; HEADER_LEN];
    header(&head_of(packet, sums), &mut words);
    due.reserve(HEADER_LEN + payload.len())?;
    due.push_spare(&words);
    due.push_spare(payload);
    Ok(())
}

/// Returns the header of a packet.
fn head_of(packet: &Packet, sums: bool) -> Head
    requires { length packet.now.payload ≤ MAX_PAYLOAD }
    ensures { result ≡ head_for packet.now (check_of sums packet.now) }
{
    let payload = packet.payload.as_slice();
    Head {
        command: packet.command,
        arg0: packet.arg0,
        arg1: packet.arg1,
        length: payload.len() as u32,
        check: if sums { byte_sum(payload) } else { 0 },
    }
}
