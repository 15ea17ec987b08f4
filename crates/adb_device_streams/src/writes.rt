//! The writes of a stream.

ghost use Rattle.std.specs.Prelude.{◌≡◌, ◌≤◌, ◌++◌, length, OnOk, OnErr};
ghost use Rattle.adb_device_streams.specs.Due.{Grows};
ghost use Rattle.adb_device_streams.specs.Stream.{Row, StandsFor, Writes, wrte, packet_bytes};

use crate::due::push_packet;
use crate::stream::Stream;
use adb_outside::{ByteQueue, Text};
use adb_wire::{Command, MAX_PAYLOAD, Packet};
use bytes::Bytes;
use std::alloc::{AllocError, Global};

/// The parameters of a stream's packets: the device's id, the maximum number of bytes of a write,
/// and whether packets carry the sum of their bytes.
#[derive(Clone, Copy)]
pub struct Outgoing {
    pub own: u32,
    pub most: u32,
    pub sums: bool,
}

/// Queues all the writes that the window of a stream allows. If an allocation fails, the first of
/// them may have been queued.
pub fn push_writes(
    alloc: Global,
    stream: &mut Stream,
    outgoing: Outgoing,
    due: &mut ByteQueue,
) -> Result<(), AllocError>
    requires { outgoing.most ≤ MAX_PAYLOAD }
    ensures writes { OnOk result ((row : Row) → StandsFor row stream.old
        → Writes outgoing.sums outgoing.own outgoing.most row
        stream.new due.old.bytes due.new.bytes) }
    ensures grows { Grows due.old.bytes due.new.bytes }
{
    while let Some(payload) = stream.next_write(alloc, outgoing.most as usize)? {
        push_write(outgoing, stream.host, payload, due)?;
    }
    Ok(())
}

/// Queues a write. If an allocation fails, the queue is unchanged.
fn push_write(
    outgoing: Outgoing,
    host: u32,
    payload: Text,
    due: &mut ByteQueue,
) -> Result<(), AllocError>
    requires { length payload ≤ MAX_PAYLOAD }
    ensures ok { OnOk result (due.new.bytes
        ≡ due.old.bytes ++ packet_bytes outgoing.sums (wrte outgoing.own host payload)) }
    ensures err { OnErr result (due.new.bytes ≡ due.old.bytes) }
    ensures grows { Grows due.old.bytes due.new.bytes }
{
    let packet = Packet {
        command: Command::Wrte,
        arg0: outgoing.own,
        arg1: host,
        payload: Bytes::from_vec(payload.into_vec())?,
    };
    push_packet(&packet, outgoing.sums, due)
}
