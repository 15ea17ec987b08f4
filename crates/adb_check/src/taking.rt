//! Applying the next entry of a history, or finding the rule that it breaks.

ghost use Rattle.std.specs.Prelude.{◌≡◌, true, IfOk, OnErr};
ghost use Rattle.adb_capture.specs.declared.entry.Entry.{Entry};
ghost use Rattle.adb_history.specs.Accepted.{is_input};
ghost use Rattle.adb_history.specs.Kept.{IsLawful};
ghost use Rattle.adb_history.specs.Machine.{History};
ghost use Rattle.adb_check.specs.Judging.{Takes, broken_by, handed_rule, reason_rule};

use crate::verdict::Rule;
use adb_capture::Entry;
use adb_entries::{Refused, apply};
use adb_history::Reason;
use adb_hub::{Handed, Hub, HubError};
use adb_outside::HandOut;
use std::alloc::AllocError;

/// Applies the next entry of the history that a hub holds, if it is legal there.
///
/// - `Ok(None)`: the entry is legal, and the hub holds the history with it.
/// - `Ok(Some(rule))`: the first rule that the entry breaks. If the entry is a hand-out whose bytes
///   are not due, the hub has handed out the due bytes instead. After any other entry the hub is
///   unchanged.
/// - `AllocError`: an allocation failed. The hub is unchanged.
pub fn take(hub: &mut Hub, entry: &Entry) -> Result<Option<Rule>, AllocError>
    ensures taken { (h : History) → IsLawful hub.old h
        → IfOk result (λ broken. Takes broken entry.now h hub.new) }
    ensures err { OnErr result (hub.new ≡ hub.old) }
{
    match entry {
        Entry::Put { client, bytes } => put(hub, *client, bytes),
        Entry::Send { link, bytes } => send(hub, *link, bytes),
        _ => come(hub, entry),
    }
}

/// Applies an entry that comes from a client or a device.
fn come(hub: &mut Hub, entry: &Entry) -> Result<Option<Rule>, AllocError>
    requires input { is_input entry.now ≡ true }
    ensures taken { (h : History) → IsLawful hub.old h
        → IfOk result (λ broken. Takes broken entry.now h hub.new) }
    ensures err { OnErr result (hub.new ≡ hub.old) }
{
    if hub.is_stopped() {
        return Ok(Some(Rule::AfterKill));
    }
    match apply(hub, entry.lend()) {
        Ok(()) => Ok(None),
        Err(Refused::Because(reason)) => Ok(rule_of(reason)),
        Err(Refused::OutOfMemory) => Err(AllocError),
    }
}

/// Returns the rule that an entry breaks if a hub refuses it for this reason. A record that is
/// refused for its form has no entry and breaks no rule.
pub fn rule_of(reason: Reason) -> Option<Rule>
    ensures { result ≡ reason_rule reason }
{
    match reason {
        Reason::NotDrawn => Some(Rule::NotDrawn),
        Reason::TooManyDevices => Some(Rule::TooManyDevices),
        Reason::BadSerial => Some(Rule::BadSerial),
        _ => None,
    }
}

/// Hands out as many bytes to a client as a Put did, and compares them with the bytes of the Put.
fn put(hub: &mut Hub, client: u32, bytes: &HandOut) -> Result<Option<Rule>, AllocError>
    ensures taken { (h : History) → IsLawful hub.old h
        → IfOk result (λ broken. Takes broken (Entry.Put client bytes.now) h hub.new) }
    ensures err { OnErr result (hub.new ≡ hub.old) }
{
    broken_by(hub.put(client, bytes.len().max(1)), bytes)
}

/// Hands out as many bytes on a link as a Send did, and compares them with the bytes of the Send.
fn send(hub: &mut Hub, link: u32, bytes: &HandOut) -> Result<Option<Rule>, AllocError>
    ensures taken { (h : History) → IsLawful hub.old h
        → IfOk result (λ broken. Takes broken (Entry.Send link bytes.now) h hub.new) }
    ensures err { OnErr result (hub.new ≡ hub.old) }
{
    broken_by(hub.send(link, bytes.len().max(1)), bytes)
}

/// Returns the rule that a hand-out of these bytes breaks, if any, by the answer of the hub.
fn broken_by(answer: Result<Handed, HubError>, bytes: &HandOut) -> Result<Option<Rule>, AllocError>
    ensures { result ≡ broken_by answer bytes.now }
{
    match answer {
        Ok(handed) => Ok(handed_rule(handed, bytes)),
        Err(HubError::OutOfMemory) => Err(AllocError),
        Err(_) => Ok(Some(Rule::NotDrawn)),
    }
}

/// Returns the rule that a hand-out of these bytes breaks, if any, by the bytes that the hub handed
/// out.
fn handed_rule(handed: Handed, bytes: &HandOut) -> Option<Rule>
    ensures { result ≡ handed_rule handed bytes.now }
{
    match handed {
        Handed::Bytes(due) if due.equals(bytes) => None,
        _ => Some(Rule::NotDue),
    }
}
