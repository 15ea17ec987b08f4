//! Hand-outs of the bytes that are due, and the clients and links to notify.

ghost use Rattle.std.specs.Prelude.{◌≡◌, ◌≢◌, ◌<◌, ◌≤◌, All, List, Err, IfOk, None, OnErr, length};
ghost use Rattle.adb_capture.specs.declared.entry.Entry.{Entry};
ghost use Rattle.adb_capture.specs.declared.limits.TheConstants.{MAX_DATA};
ghost use Rattle.adb_history.specs.Kept.{IsLawful};
ghost use Rattle.adb_history.specs.Machine.{state};
ghost use Rattle.adb_hub_hand_outs.specs.NextDue.{is_owed};
ghost use Rattle.adb_hub.specs.Answers.{IsWithin, Hands as HubHands};
ghost use Rattle.adb_server_log.specs.Log.{HasKeptHanded, KeepsHanded, shut_with};
ghost use Rattle.adb_server_log.specs.declared.error.DeskError.{DeskError};
ghost use Rattle.adb_server_log.specs.Marked.{marks_handed};
ghost use Rattle.adb_desk.specs.Acts.{due_of, out_entry};
ghost use Rattle.adb_desk.specs.Desk.{Hands, Rung};

use crate::act::Half;
use crate::desk::Desk;
use adb_hub::{Handed, Hub, HubError, Owner};
use adb_outside::HandOut;
use adb_recorder::Recorder;
use adb_server_log::{DeskError, Log, Marks, keep_put, keep_sent, marks_handed};
use std::sync::ledger::Ledger;

impl<R: Recorder, E: Ledger, M: Ledger, K: Marks> Desk<R, E, M, K> {
    /// Hands out the first bytes that are due to a client or on a link, at most `max`: one Put or
    /// Send. `Nothing` and `Done` make no entry.
    ///
    /// A desk that is shut returns the answer with which it was shut, before every other error.
    ///
    /// - `Hub(NoClient)`, `Hub(NoLink)`: the number was never drawn.
    /// - `Hub(OutOfMemory)`: an allocation failed; the bytes are still due. If it was an allocation
    ///   of the recorder, the desk is shut.
    /// - `RecordFault`: the recorder failed. The desk is shut.
    pub fn hand_out(&mut self, half: Half, number: u32, max: usize) -> Result<Handed, DeskError>
        requires { (0 < max) × (max ≤ MAX_DATA) }
        ensures handed { Rung (marks_handed result)
            (Hands self.old (out_entry half number) max (due_of half number) result) self.new }
        ensures steady { K.steady → result ≢ Err DeskError.RecordFault }
    {
        let answer = self.hand(half, number, max);
        self.log.ring(marks_handed(&answer));
        answer
    }

    /// Hands out as `hand_out` does, but sets no alarm.
    fn hand(&mut self, half: Half, number: u32, max: usize) -> Result<Handed, DeskError>
        requires { (0 < max) × (max ≤ MAX_DATA) }
        ensures handed { Hands self.old (out_entry half number) max (due_of half number)
            result self.new }
        ensures steady { K.steady → result ≢ Err DeskError.RecordFault }
    {
        if let Some(answer) = self.log.shut() {
            return Err(answer);
        }
        match give(&mut self.hub, half, number, max) {
            Err(error) => Err(DeskError::Hub(error)),
            Ok(Handed::Nothing) => Ok(Handed::Nothing),
            Ok(Handed::Done) => Ok(Handed::Done),
            Ok(Handed::Bytes(bytes)) => keep_handed(&mut self.log, half, number, bytes),
        }
    }

    /// Returns how many bytes, at most `max`, to hand out to a client or on a link at once so that
    /// no payload of 4 KiB or more is copied. See `Hub::front_len`.
    pub fn front_len(&self, owner: Owner, max: usize) -> usize
        requires { 0 < max }
        ensures { (0 < result) × (result ≤ max) }
    {
        self.hub.front_len(owner, max)
    }

    /// Returns the next client or link whose state changed since it was last returned: bytes may be
    /// due to it, its room may have grown, or it may be gone. After a kill all are gone, but not
    /// all are returned.
    pub fn next_touched(&mut self) -> Option<Owner>
        ensures same { self.new ≡ self.old }
    {
        self.hub.next_touched()
    }

    /// Returns whether bytes are due to a client or on a link, or it is gone.
    pub fn is_owed(&self, owner: Owner) -> bool
        ensures { (h : List Entry) → IsLawful self.now.hub h → result ≡ is_owed owner (state h) }
    {
        self.hub.is_owed(owner)
    }
}

/// Makes the hub's step of a hand-out.
fn give(hub: &mut Hub, half: Half, number: u32, max: usize) -> Result<Handed, HubError>
    requires { 0 < max }
    ensures given { (h : List Entry) → IsLawful hub.old h
        → HubHands (out_entry half number) max (due_of half number) result h hub.old hub.new }
    ensures form { IfOk result (IsWithin max) }
    ensures err { OnErr result (hub.new ≡ hub.old) }
{
    match half {
        Half::Client => hub.put(number, max),
        Half::Link => hub.send(number, max),
    }
}

/// Keeps the entry of bytes that were handed out, and returns the bytes.
fn keep_handed<R: Recorder, E: Ledger, M: Ledger, K: Marks>(
    log: &mut Log<R, E, M, K>,
    half: Half,
    number: u32,
    bytes: HandOut,
) -> Result<Handed, DeskError>
    requires going { shut_with log.old.is ≡ None }
    requires bytes { All (λ b. b < 256) bytes }
    requires size { length bytes ≤ MAX_DATA }
    ensures keeps { KeepsHanded log.old.is (out_entry half number) bytes result log.new.is }
    ensures kept { HasKeptHanded R.stands log.old.recorder (out_entry half number bytes) result
        log.new.recorder }
    ensures steady { K.steady → result ≢ Err DeskError.RecordFault }
{
    match half {
        Half::Client => keep_put(log, number, bytes),
        Half::Link => keep_sent(log, number, bytes),
    }
}
