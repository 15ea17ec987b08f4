//! Making the next hand-out.

ghost use Rattle.std.specs.Prelude.{◌≡◌, ◌<◌, true, IfOk, IfSome, OnErr, option_map};
ghost use Rattle.adb_capture.specs.declared.entry.Entry.{Entry};
ghost use Rattle.adb_capture.specs.Records.{HasRecord};
ghost use Rattle.adb_history.specs.Accepted.{is_drawn};
ghost use Rattle.adb_history.specs.Machine.{History};
ghost use Rattle.adb_history.specs.Kept.{IsLawful};
ghost use Rattle.adb_entries.specs.Machine.{HandsNext, IsHeld, Puts, Sends, bytes_of};
ghost use Rattle.adb_entries.specs.Remaining.{remaining};

use adb_capture::Entry;
use adb_history::order::every_legal_state_is_orderly;
use adb_history::{MAX_HAND_OUT, draining_ends};
use adb_hub::{Handed, Hub, HubError, Owner};
use std::alloc::AllocError;

/// Makes the next hand-out of the history that a hub holds: at most 65,536 bytes, to the first link
/// with output, or otherwise to the first client. Returns `None` if no output is queued. Each
/// hand-out reduces the number of those that remain. If an allocation fails, the history is
/// unchanged.
pub fn hand_next(hub: &mut Hub) -> Result<Option<Entry>, AllocError>
    requires { IsHeld hub.old }
    ensures next { IfOk result (λ out. (h : History) → IsLawful hub.old h
        → HandsNext h out hub.new) }
    ensures form { IfOk result (λ out. IfSome out HasRecord) }
    ensures fewer { IfOk result (λ out. IfSome out
        (λ _. remaining hub.new < remaining hub.old)) }
    ensures err { OnErr result (hub.new ≡ hub.old) }
{
    draining_ends();
    every_legal_state_is_orderly();
    match hub.next_due() {
        Some(Owner::Link(link)) => send(hub, link),
        Some(Owner::Client(client)) => put(hub, client),
        None => Ok(None),
    }
}

/// Puts the first bytes of a client's output queue.
fn put(hub: &mut Hub, client: u32) -> Result<Option<Entry>, AllocError>
    requires held { IsHeld hub.old }
    requires drawn { is_drawn hub.old.joined client ≡ true }
    ensures put { IfOk result (λ out. (h : History) → IsLawful hub.old h
        → Puts client h out hub.old hub.new) }
    ensures form { IfOk result (λ out. IfSome out HasRecord) }
    ensures err { OnErr result (hub.new ≡ hub.old) }
{
    match hub.put(client, MAX_HAND_OUT) {
        Ok(handed) => Ok(put_of(client, handed)),
        Err(HubError::OutOfMemory) => Err(AllocError),
        Err(_) => unreachable!(),
    }
}

/// Sends the first bytes of a link's output queue.
fn send(hub: &mut Hub, link: u32) -> Result<Option<Entry>, AllocError>
    requires held { IsHeld hub.old }
    requires drawn { is_drawn hub.old.devices.drawn link ≡ true }
    ensures sent { IfOk result (λ out. (h : History) → IsLawful hub.old h
        → Sends link h out hub.old hub.new) }
    ensures form { IfOk result (λ out. IfSome out HasRecord) }
    ensures err { OnErr result (hub.new ≡ hub.old) }
{
    match hub.send(link, MAX_HAND_OUT) {
        Ok(handed) => Ok(send_of(link, handed)),
        Err(HubError::OutOfMemory) => Err(AllocError),
        Err(_) => unreachable!(),
    }
}

/// Returns the entry of the bytes that were put to a client, if there were any.
fn put_of(client: u32, handed: Handed) -> Option<Entry>
    ensures { result ≡ option_map (Entry.Put client) (bytes_of handed) }
{
    match handed {
        Handed::Bytes(bytes) => Some(Entry::Put { client, bytes }),
        Handed::Nothing | Handed::Done => None,
    }
}

/// Returns the entry of the bytes that were sent on a link, if there were any.
fn send_of(link: u32, handed: Handed) -> Option<Entry>
    ensures { result ≡ option_map (Entry.Send link) (bytes_of handed) }
{
    match handed {
        Handed::Bytes(bytes) => Some(Entry::Send { link, bytes }),
        Handed::Nothing | Handed::Done => None,
    }
}
