//! Handing out output.

ghost use Rattle.std.specs.Prelude.{◌≡◌, ◌<◌, ◌≤◌, List, All, None, IfOk, OnErr, option_and_then};
ghost use Rattle.adb_capture.specs.declared.entry.Entry.{Entry};
ghost use Rattle.adb_history.specs.Drained.{next_out};
ghost use Rattle.adb_history.specs.Kept.{IsLawful};
ghost use Rattle.adb_history.specs.Machine.{state};
ghost use Rattle.adb_history.specs.Rows.{State};
ghost use Rattle.adb_hub_hand_outs.specs.NextDue.{owner_of, entry_of, is_owed};
ghost use Rattle.adb_hub.specs.Answers.{Hands, offered_to, due_on, handed_as, IsWithin};

use crate::answers::{Handed, Life};
use crate::error::HubError;
use crate::hub::Hub;
use adb_capture::Owner;
use adb_outside::{HandOut, Parts};

impl Hub {
    /// Hands out the first bytes of a client's output queue, at most `max`. If the queue of a
    /// tracker is empty and its list is stale, the current list is queued first.
    ///
    /// `NoClient`: no client has had that number. `OutOfMemory`: an allocation failed.
    pub fn put(&mut self, client: u32, max: usize) -> Result<Handed, HubError>
        requires { 0 < max }
        ensures put { (h : List Entry) → IsLawful self.old h → Hands (Entry.Put client) max
            (λ (s : State). offered_to s.devices (s.clients client)) result h self.old self.new }
        ensures form { IfOk result (IsWithin max) }
        ensures err { OnErr result (self.new ≡ self.old) }
    {
        self.find_client(client)?;
        match adb_hub_hand_outs::put(&mut self.tables, client, max)? {
            Some(bytes) => {
                has_bytes(&bytes);
                Ok(Handed::Bytes(bytes))
            }
            None => Ok(nothing(self.client_life(client))),
        }
    }

    /// Hands out the first bytes of a link's output queue, at most `max`.
    ///
    /// `NoLink`: no link has had that number. `OutOfMemory`: an allocation failed.
    pub fn send(&mut self, link: u32, max: usize) -> Result<Handed, HubError>
        requires { 0 < max }
        ensures sent { (h : List Entry) → IsLawful self.old h → Hands (Entry.Send link) max
            (λ (s : State). due_on (s.links link)) result h self.old self.new }
        ensures form { IfOk result (IsWithin max) }
        ensures err { OnErr result (self.new ≡ self.old) }
    {
        self.find_link(link)?;
        match adb_hub_hand_outs::send(&mut self.tables, link, max)? {
            Some(bytes) => {
                has_bytes(&bytes);
                Ok(Handed::Bytes(bytes))
            }
            None => Ok(nothing(self.link_life(link))),
        }
    }

    /// Returns how many bytes to hand out to a client or on a link at once, at most `max`, so that
    /// no payload of 4 KiB or more is copied: such a payload, with its header, or the bytes before
    /// it; `max` if none is queued. Allocates nothing.
    pub fn front_len(&self, owner: Owner, max: usize) -> usize
        requires { 0 < max }
        ensures { (0 < result) × (result ≤ max) }
    {
        adb_hub_hand_outs::front_len(&self.tables, owner, max)
    }

    /// Returns the client or link that is handed output next if everything is handed out: the least
    /// link with output, or otherwise the least client. Nothing that contracts see changes.
    /// Allocates nothing. The cost is proportional to the number of those that may have got output
    /// since the last call.
    pub fn next_due(&mut self) -> Option<Owner>
        ensures owner { (h : List Entry) → IsLawful self.old h
            → result ≡ option_and_then owner_of (next_out (state h)) }
        ensures entry { (h : List Entry) → IsLawful self.old h
            → next_out (state h) ≡ entry_of result (state h) }
        ensures same { self.new ≡ self.old }
    {
        adb_hub_hand_outs::next_due(&mut self.tables)
    }

    /// Returns the next client or link whose state changed since the last call: output may be
    /// queued for it, its input may have room again, or it may be gone. Each is returned once.
    /// Nothing that contracts see changes. Allocates nothing. The cost is proportional to the
    /// number of those that are returned. After a kill all are gone, and not all of them are
    /// returned.
    pub fn next_touched(&mut self) -> Option<Owner>
        ensures same { self.new ≡ self.old }
    {
        adb_hub_hand_outs::next_touched(&mut self.tables)
    }

    /// Returns whether a client or link has output, or is gone. Allocates nothing.
    pub fn is_owed(&self, owner: Owner) -> bool
        ensures { (h : List Entry) → IsLawful self.now h → result ≡ is_owed owner (state h) }
    {
        adb_hub_hand_outs::is_owed(&self.tables, owner)
    }
}

/// Returns the answer if there is nothing to hand out.
fn nothing(life: Life) -> Handed
    ensures { result ≡ handed_as None life }
{
    match life {
        Life::Live => Handed::Nothing,
        Life::Gone => Handed::Done,
    }
}

/// States that output that is handed out consists of bytes. It does nothing: its contract is the
/// law.
fn has_bytes(handed: &HandOut)
    ensures { All (λ b. b < 256) handed.now }
{
    let Parts { start, rest } = handed.parts();
    are_bytes(start);
    are_bytes(rest);
}

/// States that a slice consists of bytes. It does nothing: its contract is the law.
pub(crate) fn are_bytes(bytes: &[u8])
    ensures { All (λ b. b < 256) bytes.now }
{}
