//! Sections without a pass: admitting a client or a device, ending one for which no thread started,
//! and the queries about a whole hall.

ghost use Rattle.std.specs.Prelude.{◌≡◌, ◌≢◌, ◌≤◌, ◌||◌, true, Err, IfOk};
ghost use Rattle.adb_outside.specs.declared.kinds.Cause.{Cause};
ghost use Rattle.adb_hub.specs.declared.error.HubError.{HubError};
ghost use Rattle.adb_server_log.specs.declared.error.DeskError.{DeskError};
ghost use Rattle.adb_server_log.specs.Marked.{marks_error};
ghost use Rattle.adb_desk.specs.Acts.{HasBadSerial, MayCome, entry_by, marks_progress};
ghost use Rattle.adb_server_hall.specs.Telling.{Draws, Submits, ends_of, telling_of};
ghost use Rattle.adb_server_hall.specs.Passes.{ArePair};

use crate::sections::{Arrival, Call};
use adb_capture::Owner;
use adb_desk::{Act, Comer, Desk, Progress, marks_progress};
use adb_outside::Cause;
use adb_recorder::Recorder;
use adb_server_log::{DeskError, Mark, Marks, Pass, marks_error};
use std::sync::ledger::Ledger;

impl Arrival for Comer<'_> {
    ghost use Rattle.adb_desk.specs.Acts.{HasBadSerial, MayCome, entry_by};

    ghost may = { λ comer. MayCome comer };

    ghost entry = { λ comer n. entry_by comer n };

    ghost bad = { λ comer. HasBadSerial comer };

    fn run<R: Recorder, E: Ledger, M: Ledger, K: Marks>(
        &self,
        desk: &mut Desk<R, E, M, K>,
    ) -> Result<(Pass<E, M, K>, Pass<E, M, K>), DeskError> {
        draw_pair(desk, *self)
    }

    fn owner(&self, number: u32) -> Owner {
        match self {
            Comer::Client | Comer::Forward(_) => Owner::Client(number),
            Comer::Device(_, _) => Owner::Link(number),
        }
    }
}

/// The section that ends a client or a link for which no thread started.
#[derive(Drop)]
pub struct EndWithoutThread {
    pub owner: Owner,
}

impl Call<Result<Progress, DeskError>> for EndWithoutThread {
    ghost use Rattle.std.specs.Prelude.{◌≢◌, Err};
    ghost use Rattle.adb_outside.specs.declared.kinds.Cause.{Cause};
    ghost use Rattle.adb_server_log.specs.declared.error.DeskError.{DeskError};
    ghost use Rattle.adb_desk.specs.Acts.{marks_progress};
    ghost use Rattle.adb_server_hall.specs.Telling.{Submits, ends_of};

    ghost does = { λ s answer a b. Submits (ends_of s.owner Cause.NoThread) answer a b };

    ghost marks = { λ answer. marks_progress answer };

    ghost sound = { λ answer. answer ≢ Err DeskError.RecordFault };

    fn run<R: Recorder, E: Ledger, M: Ledger, K: Marks>(
        &self,
        desk: &mut Desk<R, E, M, K>,
    ) -> Result<Progress, DeskError> {
        end_owner(desk, self.owner)
    }

    fn is_marked(&self, answer: &Result<Progress, DeskError>) -> bool {
        marks_progress(answer)
    }
}

/// The section that returns whether the hall is over.
#[derive(Drop)]
pub struct Over {}

impl Call<Option<DeskError>> for Over {
    ghost use Rattle.std.specs.Prelude.{◌≢◌, Some, is_some};
    ghost use Rattle.adb_server_log.specs.declared.error.DeskError.{DeskError};
    ghost use Rattle.adb_server_hall.specs.Telling.{Overs};

    ghost does = { λ s answer a b. Overs answer a b };

    ghost marks = { λ answer. is_some answer };

    ghost sound = { λ answer. answer ≢ Some DeskError.RecordFault };

    fn run<R: Recorder, E: Ledger, M: Ledger, K: Marks>(
        &self,
        desk: &mut Desk<R, E, M, K>,
    ) -> Option<DeskError> {
        desk.over()
    }

    fn is_marked(&self, answer: &Option<DeskError>) -> bool {
        answer.is_some()
    }
}

/// The section that returns whether the hub has a forward of a local port.
#[derive(Drop)]
pub struct HasForward {
    pub port: u16,
}

impl Call<Result<bool, DeskError>> for HasForward {
    ghost use Rattle.std.specs.Prelude.{◌≢◌, Err};
    ghost use Rattle.adb_server_log.specs.declared.error.DeskError.{DeskError};
    ghost use Rattle.adb_server_log.specs.Marked.{marks_error};
    ghost use Rattle.adb_server_hall.specs.Telling.{Forwards};

    ghost does = { λ s answer a b. Forwards s.port answer a b };

    ghost marks = { λ answer. marks_error answer };

    ghost sound = { λ answer. answer ≢ Err DeskError.RecordFault };

    fn run<R: Recorder, E: Ledger, M: Ledger, K: Marks>(
        &self,
        desk: &mut Desk<R, E, M, K>,
    ) -> Result<bool, DeskError> {
        desk.has_forward(self.port)
    }

    fn is_marked(&self, answer: &Result<bool, DeskError>) -> bool {
        marks_error(answer)
    }
}

/// The section that shuts the hall.
#[derive(Drop)]
pub struct Halt {}

impl Call<()> for Halt {
    ghost use Rattle.std.specs.Prelude.{false, ⊤};
    ghost use Rattle.adb_server_hall.specs.Telling.{Halts};

    ghost does = { λ s answer a b. Halts a b };

    ghost marks = { λ answer. false };

    ghost sound = { λ answer. ⊤ };

    fn run<R: Recorder, E: Ledger, M: Ledger, K: Marks>(&self, desk: &mut Desk<R, E, M, K>) {
        desk.halt();
    }

    fn is_marked(&self, _answer: &()) -> bool {
        false
    }
}

/// Admits a client or a device, and makes its passes.
fn draw_pair<R: Recorder, E: Ledger, M: Ledger, K: Marks>(
    desk: &mut Desk<R, E, M, K>,
    comer: Comer<'_>,
) -> Result<(Pass<E, M, K>, Pass<E, M, K>), DeskError>
    requires { MayCome comer }
    ensures passes { IfOk result (λ passes. ArePair passes.0 passes.1) }
    ensures serial { result ≡ Err (DeskError.Hub HubError.BadSerial) → HasBadSerial comer.entry }
    ensures told { Draws (entry_by comer.entry) (λ passes. passes.0.number) result
        (telling_of desk.old) (telling_of desk.new) }
    ensures steady { K.steady → result ≢ Err DeskError.RecordFault }
    ensures alarm { marks_error result ≡ true → desk.new.log.alarm ≡ true }
{
    match desk.admit(comer) {
        Err(error) => Err(error),
        Ok(_) => Ok(seat_pair(desk)),
    }
}

/// Returns the passes of the number that was drawn last: first that of the reader, which counts the
/// entry by which the client or device came, then that of the writer.
fn seat_pair<R: Recorder, E: Ledger, M: Ledger, K: Marks>(
    desk: &mut Desk<R, E, M, K>,
) -> (Pass<E, M, K>, Pass<E, M, K>)
    requires free { desk.old.log.free ≡ 2 }
    requires entry { 1 ≤ desk.old.log.home_entries }
    ensures pair { ArePair result.0 result.1 }
    ensures number { result.0.number ≡ desk.old.log.drawn }
    ensures told { telling_of desk.new ≡ telling_of desk.old }
    ensures alarm { desk.new.log.alarm ≡ desk.old.log.alarm }
{
    let mut reading = desk.seat();
    let writing = desk.seat();
    desk.note(&mut reading, true, 0, false, false);
    (reading, writing)
}

/// Ends a client or a link for which no thread started.
fn end_owner<R: Recorder, E: Ledger, M: Ledger, K: Marks>(
    desk: &mut Desk<R, E, M, K>,
    owner: Owner,
) -> Result<Progress, DeskError>
    ensures told { Submits (ends_of owner Cause.NoThread) result (telling_of desk.old)
        (telling_of desk.new) }
    ensures steady { K.steady → result ≢ Err DeskError.RecordFault }
    ensures alarm { marks_progress result ≡ true → desk.new.log.alarm ≡ true }
{
    match owner {
        Owner::Client(client) => desk.submit(client, Act::End(Cause::NoThread)),
        Owner::Link(link) => desk.submit(link, Act::Detach(Cause::NoThread)),
    }
}

/// Sets the mark of a handle after a call without a pass, if the answer is marked.
pub fn mark_handle<R: Recorder, E: Ledger, M: Ledger, K: Marks>(
    desk: &mut Desk<R, E, M, K>,
    mark: &mut Mark<K>,
    marked: bool,
)
    requires { marked ≡ true → desk.old.log.alarm ≡ true }
    ensures mark { mark.new ≡ (mark.old || marked) }
    ensures same { desk.new ≡ desk.old }
{
    if marked {
        desk.mark(mark);
    }
}
