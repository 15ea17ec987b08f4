//! The state under the lock.

use crate::bells::{Bells, Side};
use crate::rings::Rings;
use adb_desk::Desk;
use adb_hub::Owner;
use adb_recorder::Recorder;
use adb_server_log::Marks;
use std::sync::ledger::Ledger;

/// The desk, and the condition variables of the workers.
#[derive(Drop)]
pub struct Locked<R: Recorder, E: Ledger, M: Ledger, K: Marks> {
    /// The desk.
    pub desk: Desk<R, E, M, K>,
    /// The condition variables of the passes that are out.
    pub bells: Bells,
    /// Whether all workers were notified since the desk was shut or a kill was made.
    pub is_over: bool,
}

impl<R: Recorder, E: Ledger, M: Ledger, K: Marks> Locked<R, E, M, K> {
    /// Returns the workers to notify after a section: those of each client and link to which bytes
    /// came due, for which room was made, or which is gone; and all workers, once, after the desk
    /// was shut or a kill was made.
    pub fn ring(&mut self) -> Rings {
        let mut rings = self.bells.ring_strays();
        if !self.is_over && (self.desk.is_stopped() || !self.desk.is_open()) {
            self.is_over = true;
            self.bells.ring_all(&mut rings);
        }
        for _ in 0..u64::MAX {
            match self.desk.next_touched() {
                Some(owner) => self.ring_for(owner, &mut rings),
                None => break,
            }
        }
        rings
    }

    /// Adds the workers of a client or a link whose state changed.
    fn ring_for(&mut self, owner: Owner, rings: &mut Rings) {
        if self.desk.is_owed(owner) {
            self.bells.ring(owner, Side::Writer, rings);
        }
        if !self.desk.has_no_room_yet(owner) {
            self.bells.ring(owner, Side::Reader, rings);
        }
    }
}
