//! The calls of a world on its hub and its device, none of which they refuse.

ghost use Rattle.std.specs.Prelude.{◌≡◌, ◌≢◌, ◌<◌, ◌≤◌, ◌+◌, ◌-◌, ◌^◌, ◌++◌, ◌∷◌, [], true, false, ℕ, List, Err, length, take, IfOk, OnErr, OnOk};
ghost use Rattle.adb_wire.specs.Cutting.{parts_of};
ghost use Rattle.adb_outside.specs.declared.kinds.Cause.{Cause};
ghost use Rattle.adb_capture.specs.declared.entry.Entry.{Entry};
ghost use Rattle.adb_history.specs.Accepted.{is_drawn};
ghost use Rattle.adb_history.specs.Kept.{IsLawful};
ghost use Rattle.adb_history.specs.Machine.{History, state};
ghost use Rattle.adb_daemon.specs.Daemon.{CutsOff, HasDone, files_of};
ghost use Rattle.adb_daemon.specs.Device.{Setting};
ghost use Rattle.adb_daemon.specs.declared.error.DaemonError.{DaemonError};
ghost use Rattle.adb_hub.specs.Answers.{due_on, offered_to};
ghost use Rattle.adb_laws_answers.specs.Model.{model_setting};
ghost use Rattle.adb_world.specs.Calls.{HasHistory, HasTaken, TakesSoundly, bytes_of};
ghost use Rattle.adb_world.specs.Parts.{plugging};
ghost use Rattle.adb_world.specs.Session.{left_of};

use crate::session::Session;
use adb_daemon::{Daemon, DaemonError};
use adb_hub::{Handed, Hub, HubError};
use adb_outside::{Cause, HandOut, Kind, Parts};
use std::alloc::AllocError;

/// The link of the model device, and its serial.
const LINK: u32 = 1;

const SERIAL: &[u8] = b"model-1";

/// Plugs in the device.
pub(crate) fn plug_in(hub: &mut Hub) -> Result<(), AllocError>
    requires { IsLawful hub.old [] }
    ensures { OnOk result (IsLawful hub.new (plugging ∷ [])) }
{
    match hub.attach(Kind::Local, SERIAL) {
        Ok(_) => Ok(()),
        Err(HubError::OutOfMemory) => Err(AllocError),
        Err(_) => unreachable!(),
    }
}

/// Admits the next client.
pub(crate) fn join(hub: &mut Hub) -> Result<u32, AllocError>
    requires held { HasHistory hub.old }
    requires on { hub.old.stopped ≡ false }
    requires room { hub.old.joined < 2 ^ 32 - 1 }
    ensures number { IfOk result (λ number. number ≡ hub.old.joined + 1) }
    ensures joined { OnOk result ((h : History) → IsLawful hub.old h
        → IsLawful hub.new (Entry.Join (hub.old.joined + 1) ∷ h)) }
{
    match hub.join() {
        Ok(number) => Ok(number),
        Err(HubError::OutOfMemory) => Err(AllocError),
        Err(_) => unreachable!(),
    }
}

/// Makes the hub read the next words of the session of a client, at most `max` bytes.
pub(crate) fn read_next(
    hub: &mut Hub,
    client: u32,
    session: &Session,
    max: usize,
) -> Result<(), AllocError>
    requires held { HasHistory hub.old }
    requires on { hub.old.stopped ≡ false }
    requires drawn { is_drawn hub.old.joined client ≡ true }
    requires within { session.now.written ≤ length session.now.words }
    ensures { OnOk result ((h : History) → IsLawful hub.old h
        → IsLawful hub.new (Entry.Read client (take max (left_of session.now)) ∷ h)) }
{
    let Parts { start, rest } = session.next_words(max);
    if start.is_empty() {
        return read(hub, client, rest);
    }
    if rest.is_empty() {
        return read(hub, client, start);
    }
    let piece = session.words.join(start, rest)?;
    read(hub, client, piece.as_slice())
}

/// Makes the hub read bytes of a client.
fn read(hub: &mut Hub, client: u32, piece: &[u8]) -> Result<(), AllocError>
    requires held { HasHistory hub.old }
    requires on { hub.old.stopped ≡ false }
    requires drawn { is_drawn hub.old.joined client ≡ true }
    ensures { OnOk result ((h : History) → IsLawful hub.old h
        → IsLawful hub.new (Entry.Read client piece.now ∷ h)) }
{
    match hub.read(client, piece) {
        Ok(_) => Ok(()),
        Err(HubError::OutOfMemory) => Err(AllocError),
        Err(_) => unreachable!(),
    }
}

/// Ends the input of a client in order. It allocates nothing.
pub(crate) fn end(hub: &mut Hub, client: u32)
    requires held { HasHistory hub.old }
    requires on { hub.old.stopped ≡ false }
    requires drawn { is_drawn hub.old.joined client ≡ true }
    ensures { (h : History) → IsLawful hub.old h
        → IsLawful hub.new (Entry.End client Cause.Eof ∷ h) }
{
    match hub.end(client, Cause::Eof) {
        Ok(_) => {}
        Err(_) => unreachable!(),
    }
}

/// Makes the hub receive bytes on the link.
pub(crate) fn receive(hub: &mut Hub, piece: &[u8]) -> Result<(), AllocError>
    requires held { HasHistory hub.old }
    requires on { hub.old.stopped ≡ false }
    requires drawn { is_drawn hub.old.devices.drawn 1 ≡ true }
    ensures { OnOk result ((h : History) → IsLawful hub.old h
        → IsLawful hub.new (Entry.Recv 1 piece.now ∷ h)) }
{
    match hub.recv(LINK, piece) {
        Ok(_) => Ok(()),
        Err(HubError::OutOfMemory) => Err(AllocError),
        Err(_) => unreachable!(),
    }
}

/// Hands out the first bytes that are due to a client, at most `max`. Returns `None` if none are
/// due.
pub(crate) fn put(hub: &mut Hub, client: u32, max: usize) -> Result<Option<HandOut>, AllocError>
    requires some { 0 < max }
    requires held { HasHistory hub.old }
    requires drawn { is_drawn hub.old.joined client ≡ true }
    ensures { IfOk result (λ out. (h : History) → IsLawful hub.old h
        → HasTaken (Entry.Put client) max
        (offered_to (state h).devices ((state h).clients client)) out h hub.old hub.new) }
{
    match hub.put(client, max) {
        Ok(handed) => Ok(bytes_of(handed)),
        Err(HubError::OutOfMemory) => Err(AllocError),
        Err(_) => unreachable!(),
    }
}

/// Hands out the first bytes that are due on the link, at most `max`. Returns `None` if none are
/// due.
pub(crate) fn send(hub: &mut Hub, max: usize) -> Result<Option<HandOut>, AllocError>
    requires some { 0 < max }
    requires held { HasHistory hub.old }
    requires drawn { is_drawn hub.old.devices.drawn 1 ≡ true }
    ensures { IfOk result (λ out. (h : History) → IsLawful hub.old h
        → HasTaken (Entry.Send 1) max (due_on ((state h).links 1)) out h hub.old hub.new) }
{
    match hub.send(LINK, max) {
        Ok(handed) => Ok(bytes_of(handed)),
        Err(HubError::OutOfMemory) => Err(AllocError),
        Err(_) => unreachable!(),
    }
}

/// Returns the bytes that were handed out.
fn bytes_of(handed: Handed) -> Option<HandOut>
    ensures { result ≡ bytes_of handed }
{
    match handed {
        Handed::Bytes(bytes) => Some(bytes),
        Handed::Nothing | Handed::Done => None,
    }
}

/// Feeds the device bytes that were handed out, in which it finds no fault.
///
/// - `AllocError`: an allocation failed. The device has handled some of the packets; its files are
///   those after them, or after a prefix of the requests of the next packet.
pub(crate) fn feed(device: &mut Daemon, out: &HandOut) -> Result<(), AllocError>
    requires { TakesSoundly device.old out.now }
    ensures done { OnOk result ((fed taken : List ℕ)
        → HasDone model_setting fed taken device.old
        → HasDone model_setting (fed ++ out.now) taken device.new) }
    ensures cut { OnErr result ((fed taken : List ℕ)
        → HasDone model_setting fed taken device.old
        → CutsOff model_setting (parts_of fed).packets (parts_of (fed ++ out.now)).packets
        (files_of device.new)) }
{
    let Parts { start, rest } = out.parts();
    feed_front(device, start)?;
    feed_last(device, rest)?;
    Ok(())
}

/// Feeds the device bytes. An error in them is dropped here, because the device returns it again
/// for later bytes.
fn feed_front(device: &mut Daemon, piece: &[u8]) -> Result<(), AllocError>
    ensures done { OnOk result ((setting : Setting) (fed taken : List ℕ)
        → HasDone setting fed taken device.old
        → HasDone setting (fed ++ piece.now) taken device.new) }
    ensures cut { OnErr result ((setting : Setting) (fed taken : List ℕ)
        → HasDone setting fed taken device.old
        → CutsOff setting (parts_of fed).packets (parts_of (fed ++ piece.now)).packets
        (files_of device.new)) }
{
    let answer = device.feed(piece);
    if ran_out(&answer) {
        return Err(AllocError);
    }
    Ok(())
}

/// Returns whether an allocation of a device failed.
fn ran_out(answer: &Result<(), DaemonError>) -> bool
    ensures found { result ≡ false → answer.now ≢ Err DaemonError.OutOfMemory }
    ensures none { result ≡ true → answer.now ≡ Err DaemonError.OutOfMemory }
{
    matches!(answer, Err(DaemonError::OutOfMemory))
}

/// Feeds the device bytes in which it finds no fault.
fn feed_last(device: &mut Daemon, piece: &[u8]) -> Result<(), AllocError>
    requires { TakesSoundly device.old piece.now }
    ensures done { OnOk result ((fed taken : List ℕ)
        → HasDone model_setting fed taken device.old
        → HasDone model_setting (fed ++ piece.now) taken device.new) }
    ensures cut { OnErr result ((fed taken : List ℕ)
        → HasDone model_setting fed taken device.old
        → CutsOff model_setting (parts_of fed).packets (parts_of (fed ++ piece.now)).packets
        (files_of device.new)) }
{
    match device.feed(piece) {
        Ok(()) => Ok(()),
        Err(DaemonError::OutOfMemory) => Err(AllocError),
        Err(_) => unreachable!(),
    }
}
