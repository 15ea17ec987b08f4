//! The packets that a stream queues in answer to the host's packets.

ghost use Rattle.std.specs.Prelude.{◌≡◌, ◌≤◌, ◌⊎◌, ◌++◌, [], ℕ, length, IfOk, OnOk, OnErr};
ghost use Rattle.byteorder.specs.Endian.{little_bytes};
ghost use Rattle.adb_device_streams.specs.Asked.{kind_of};
ghost use Rattle.adb_device_streams.specs.Service.{came_over, files_opened, files_fed, HasFrontOfFiles};
ghost use Rattle.adb_device_streams.specs.Due.{Grows};
ghost use Rattle.adb_device_streams.specs.Stream.{Row, StandsFor, Settles, opened, row_took, row_acked, ack_bytes, okay, clse, opening_word, packet_bytes};

use crate::asked::Asked;
use crate::due::push_packet;
use crate::stream::Stream;
use crate::writes::{Outgoing, push_writes};
use adb_files::Files;
use adb_outside::ByteQueue;
use adb_stream::{CREDIT_WINDOW, Flow};
use adb_wire::{Command, MAX_PAYLOAD, Packet};
use byteorder::{ByteOrder, LittleEndian};
use bytes::Bytes;
use std::alloc::{AllocError, Global};

/// Answers an OPEN of a known service: the stream is opened and acknowledged, and its service
/// answers. Returns whether the stream is done already, with its CLSE queued. If an allocation
/// fails, the files are unchanged or those that the command leaves.
pub fn answer_open(
    alloc: Global,
    files: &mut Files,
    asked: Asked<'_>,
    host: u32,
    credit: Option<u32>,
    outgoing: Outgoing,
    due: &mut ByteQueue,
) -> Result<(Stream, bool), AllocError>
    requires { outgoing.most ≤ MAX_PAYLOAD }
    ensures settles { IfOk result (λ opening. Settles outgoing.sums outgoing.own outgoing.most
        (opened host (kind_of asked.entry) files.old credit) opening.0
        (due.old.bytes ++ packet_bytes outgoing.sums
        (okay outgoing.own host (opening_word credit))) due.new.bytes opening.1) }
    ensures files { OnOk result (files.new ≡ files_opened (kind_of asked.entry) files.old) }
    ensures err { OnErr result ((files.new ≡ files.old)
        ⊎ (files.new ≡ files_opened (kind_of asked.entry) files.old)) }
    ensures grows { Grows due.old.bytes due.new.bytes }
{
    let mut stream = Stream::open(alloc, files, host, asked, credit)?;
    push_opening(alloc, outgoing, host, credit, due)?;
    let done = settle(alloc, &mut stream, outgoing, due)?;
    Ok((stream, done))
}

/// Answers a write of the host: it is acknowledged, the service takes it, and the stream settles.
/// Returns whether the stream is done.
pub fn answer_write(
    alloc: Global,
    files: &mut Files,
    stream: &mut Stream,
    payload: &[u8],
    outgoing: Outgoing,
    due: &mut ByteQueue,
) -> Result<bool, AllocError>
    requires most { outgoing.most ≤ MAX_PAYLOAD }
    requires payload { length payload.now ≤ MAX_PAYLOAD }
    ensures settles { IfOk result (λ done. (row : Row) → StandsFor row stream.old
        → Settles outgoing.sums outgoing.own outgoing.most
        (row_took (came_over payload.now files.old) row) stream.new
        (due.old.bytes ++ ack_bytes outgoing.sums outgoing.own row.host row.flow
        (length payload.now)) due.new.bytes done) }
    ensures files { OnOk result ((row : Row) → StandsFor row stream.old
        → files.new ≡ files_fed row.kind row.past (came_over payload.now files.old)) }
    ensures front { OnErr result ((row : Row) → StandsFor row stream.old
        → HasFrontOfFiles row.kind row.past (came_over payload.now files.old) files.new) }
    ensures grows { Grows due.old.bytes due.new.bytes }
{
    push_ack(alloc, outgoing, stream, payload.len() as u32, due)?;
    stream.take_write(files, payload)?;
    let done = settle(alloc, stream, outgoing, due)?;
    Ok(done)
}

/// Answers an OKAY of the host: it acknowledges a write, or gives credit for more, and the stream
/// settles. Returns whether the stream is done.
pub fn answer_okay(
    alloc: Global,
    stream: &mut Stream,
    word: Option<u32>,
    outgoing: Outgoing,
    due: &mut ByteQueue,
) -> Result<bool, AllocError>
    requires { outgoing.most ≤ MAX_PAYLOAD }
    ensures settles { IfOk result (λ done. (row : Row) → StandsFor row stream.old
        → Settles outgoing.sums outgoing.own outgoing.most (row_acked word row) stream.new
        due.old.bytes due.new.bytes done) }
    ensures grows { Grows due.old.bytes due.new.bytes }
{
    stream.acked(word);
    let done = settle(alloc, stream, outgoing, due)?;
    Ok(done)
}

/// Queues all the writes that the window of a stream allows, and then its CLSE if the stream is
/// done. Returns whether it is done.
fn settle(
    alloc: Global,
    stream: &mut Stream,
    outgoing: Outgoing,
    due: &mut ByteQueue,
) -> Result<bool, AllocError>
    requires { outgoing.most ≤ MAX_PAYLOAD }
    ensures settles { IfOk result (λ done. (row : Row) → StandsFor row stream.old
        → Settles outgoing.sums outgoing.own outgoing.most row stream.new
        due.old.bytes due.new.bytes done) }
    ensures grows { Grows due.old.bytes due.new.bytes }
{
    push_writes(alloc, stream, outgoing, due)?;
    if !stream.is_done() {
        return Ok(false);
    }
    push_close(outgoing, stream.host, due)?;
    Ok(true)
}

/// Queues the OKAY that opens a stream.
fn push_opening(
    alloc: Global,
    outgoing: Outgoing,
    host: u32,
    credit: Option<u32>,
    due: &mut ByteQueue,
) -> Result<(), AllocError>
    ensures ok { OnOk result (due.new.bytes ≡ due.old.bytes
        ++ packet_bytes outgoing.sums (okay outgoing.own host (opening_word credit))) }
    ensures grows { Grows due.old.bytes due.new.bytes }
{
    match credit {
        None => push_okay(alloc, outgoing, host, &[], due),
        Some(_) => push_okay(alloc, outgoing, host, &credit_word(CREDIT_WINDOW), due),
    }
}

/// Acknowledges a write of `n` bytes.
fn push_ack(
    alloc: Global,
    outgoing: Outgoing,
    stream: &Stream,
    n: u32,
    due: &mut ByteQueue,
) -> Result<(), AllocError>
    ensures ok { OnOk result (due.new.bytes ≡ due.old.bytes
        ++ ack_bytes outgoing.sums outgoing.own stream.now.host stream.now.flow n) }
    ensures grows { Grows due.old.bytes due.new.bytes }
{
    match &stream.flow {
        Flow::One(_) => push_okay(alloc, outgoing, stream.host, &[], due),
        Flow::Credit(_) => {
            if n == 0 {
                return Ok(());
            }
            push_okay(alloc, outgoing, stream.host, &credit_word(n), due)
        }
    }
}

/// Queues an OKAY. If an allocation fails, the queue is unchanged.
fn push_okay(
    alloc: Global,
    outgoing: Outgoing,
    host: u32,
    payload: &[u8],
    due: &mut ByteQueue,
) -> Result<(), AllocError>
    requires { length payload.now ≤ 4 }
    ensures ok { OnOk result (due.new.bytes ≡ due.old.bytes
        ++ packet_bytes outgoing.sums (okay outgoing.own host payload.now)) }
    ensures grows { Grows due.old.bytes due.new.bytes }
{
    let packet = Packet {
        command: Command::Okay,
        arg0: outgoing.own,
        arg1: host,
        payload: Bytes::copy_from_slice(alloc, payload)?,
    };
    push_packet(&packet, outgoing.sums, due)
}

/// Queues a CLSE. If an allocation fails, the queue is unchanged.
fn push_close(outgoing: Outgoing, host: u32, due: &mut ByteQueue) -> Result<(), AllocError>
    ensures ok { OnOk result (due.new.bytes ≡ due.old.bytes
        ++ packet_bytes outgoing.sums (clse outgoing.own host)) }
    ensures grows { Grows due.old.bytes due.new.bytes }
{
    let packet = Packet {
        command: Command::Clse,
        arg0: outgoing.own,
        arg1: host,
        payload: Bytes::new(),
    };
    push_packet(&packet, outgoing.sums, due)
}

/// Returns a credit word: four bytes, the lowest first.
fn credit_word(n: u32) -> [u8; 4]
    ensures { result ≡ little_bytes 4 n }
{
    let mut word = [0; 4];
    LittleEndian::write_u32(&mut word, n);
    word
}
