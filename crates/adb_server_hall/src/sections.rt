//! Critical sections of a hall, as values. A hall runs a section while it holds its desk.

use adb_capture::Owner;
use adb_desk::{Desk, Half};
use adb_recorder::Recorder;
use adb_server_log::{DeskError, Marks, Pass};
use std::sync::ledger::Ledger;

/// An event that a section waits for: it concerns the owner of the pass.
#[derive(Clone, Copy, Debug, PartialEq, Eq, Drop)]
pub enum Awaits {
    /// Bytes come due to the client or on the link. Its writer waits for them.
    Output(Half),
    /// The client, or the device of the link, has room. Its reader waits for it.
    Room(Half),
}

/// A section with a pass. Its answer has the type `A`.
pub trait Section<A: Drop> {
    ghost use Rattle.std.specs.Prelude.{◌≡◌, true, false};
    ghost use Rattle.adb_server_log.specs.Pass.{PassView};
    ghost use Rattle.adb_server_hall.specs.Telling.{Telling, telling_of};

    /// The requirement on the pass.
    ghost may: { Self → PassView → Type 0 };

    /// The relation between the pass, the answer, and the pass after it.
    ghost seen: { Self → PassView → A → PassView → Type 0 };

    /// The effect of this answer on the state that the desk shows to contracts.
    ghost does: { Self → PassView → A → Telling → Telling → Type 0 };

    /// The property of the desk's state that holds after this answer.
    ghost leaves: { Self → PassView → A → Telling → Type 0 };

    /// The answers that idle: a hall that waits sleeps after one, and then runs the section again.
    ghost idles: { A → Type 0 };

    /// The answers that are possible over a recorder that never fails.
    ghost sound: { A → Type 0 };

    /// Runs the section on a desk. An answer that idles leaves the pass unchanged.
    fn run<R: Recorder, E: Ledger, M: Ledger, K: Marks>(
        &self,
        desk: &mut Desk<R, E, M, K>,
        pass: &mut Pass<E, M, K>,
    ) -> A
        requires { may self.now pass.old }
        ensures seen { seen self.now pass.old result pass.new }
        ensures again { idles result → pass.new ≡ pass.old }
        ensures told { does self.now pass.old result (telling_of desk.old)
            (telling_of desk.new) }
        ensures after { leaves self.now pass.old result (telling_of desk.new) }
        ensures steady { K.steady → sound result };

    /// Returns whether an answer idles.
    fn is_idle(&self, answer: &A) -> bool
        ensures yes { result ≡ true → idles answer.now }
        ensures no { result ≡ false → idles answer.now → ⊥ };

    /// Returns the event that a hall waits for after an answer that idles.
    fn awaits(&self) -> Awaits;
}

/// A section without a pass. Its answer has the type `A`.
pub trait Call<A: Drop> {
    ghost use Rattle.std.specs.Prelude.{◌≡◌, Bool, true};
    ghost use Rattle.adb_server_hall.specs.Telling.{Telling, telling_of};

    /// The effect of this answer on the state that the desk shows to contracts.
    ghost does: { Self → A → Telling → Telling → Type 0 };

    /// Whether an answer is marked.
    ghost marks: { A → Bool };

    /// The answers that are possible over a recorder that never fails.
    ghost sound: { A → Type 0 };

    /// Runs the section on a desk.
    fn run<R: Recorder, E: Ledger, M: Ledger, K: Marks>(&self, desk: &mut Desk<R, E, M, K>) -> A
        ensures told { does self.now result (telling_of desk.old) (telling_of desk.new) }
        ensures alarm { marks result ≡ true → desk.new.log.alarm ≡ true }
        ensures steady { K.steady → sound result };

    /// Returns whether an answer is marked.
    fn is_marked(&self, answer: &A) -> bool
        ensures { result ≡ marks answer.now };
}

/// A section in which a client or a device comes.
pub trait Arrival {
    ghost use Rattle.std.specs.Prelude.{◌≡◌, ◌≢◌, ℕ, Err, IfOk, true};
    ghost use Rattle.adb_capture.specs.declared.entry.Entry.{Entry};
    ghost use Rattle.adb_hub.specs.declared.error.HubError.{HubError};
    ghost use Rattle.adb_server_log.specs.declared.error.DeskError.{DeskError};
    ghost use Rattle.adb_server_log.specs.Marked.{marks_error};
    ghost use Rattle.adb_server_hall.specs.Passes.{ArePair};
    ghost use Rattle.adb_server_hall.specs.Telling.{Draws, telling_of};

    /// The condition under which the client or the device may come.
    ghost may: { Self → Type 0 };

    /// The entry of the arrival, if it draws this number.
    ghost entry: { Self → ℕ → Entry };

    /// It is a device, and its serial is not valid.
    ghost bad: { Self → Type 0 };

    /// Runs the section on a desk. Returns the passes of the reader and of the writer.
    fn run<R: Recorder, E: Ledger, M: Ledger, K: Marks>(
        &self,
        desk: &mut Desk<R, E, M, K>,
    ) -> Result<(Pass<E, M, K>, Pass<E, M, K>), DeskError>
        requires { may self.now }
        ensures passes { IfOk result (λ passes. ArePair passes.0 passes.1) }
        ensures serial { result ≡ Err (DeskError.Hub HubError.BadSerial) → bad self.now }
        ensures told { Draws (entry self.now) (λ passes. passes.0.number) result
            (telling_of desk.old) (telling_of desk.new) }
        ensures steady { K.steady → result ≢ Err DeskError.RecordFault }
        ensures alarm { marks_error result ≡ true → desk.new.log.alarm ≡ true };

    /// Returns the client or the link that has this number.
    fn owner(&self, number: u32) -> Owner;
}
