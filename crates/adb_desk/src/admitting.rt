//! Admission of clients and devices.

ghost use Rattle.std.specs.Prelude.{◌≡◌, ◌≢◌, ◌<◌, Err};
ghost use Rattle.adb_outside.specs.declared.kinds.Kind.{Kind};
ghost use Rattle.adb_capture.specs.declared.entry.Entry.{Entry};
ghost use Rattle.adb_server_log.specs.declared.error.DeskError.{DeskError};
ghost use Rattle.adb_server_log.specs.Marked.{marks_error};
ghost use Rattle.adb_hub.specs.declared.error.HubError.{HubError};
ghost use Rattle.adb_desk.specs.Acts.{HasBadSerial, MayCome, entry_by};
ghost use Rattle.adb_desk.specs.Desk.{Draws, Rung};

use crate::act::Comer;
use crate::desk::Desk;
use adb_capture::Entry;
use adb_hub::HubError;
use adb_outside::{Kind, Text};
use adb_recorder::Recorder;
use adb_server_log::{DeskError, Marks, keep_attach, marks_error};
use std::sync::ledger::Ledger;

impl<R: Recorder, E: Ledger, M: Ledger, K: Marks> Desk<R, E, M, K> {
    /// Admits a client or a device and returns its number, which is drawn: one entry. After an
    /// error no number is drawn.
    ///
    /// A desk that is shut returns the answer with which it was shut, before every other error.
    ///
    /// - `Hub(Stopped)`: a kill was made.
    /// - `Hub(Numbers)`: all numbers are drawn.
    /// - `Hub(Full)`: a device came, and as many devices as the registry holds are attached.
    /// - `Hub(BadSerial)`: the device's serial is not valid.
    /// - `Hub(OutOfMemory)`: an allocation failed. If it was an allocation of the recorder, the
    ///   desk is shut.
    /// - `RecordFault`: the recorder failed. The desk is shut.
    pub fn admit(&mut self, comer: Comer<'_>) -> Result<u32, DeskError>
        requires { MayCome comer }
        ensures admitted { Rung (marks_error result)
            (Draws self.old (entry_by comer.entry) result) self.new }
        ensures serial { result ≡ Err (DeskError.Hub HubError.BadSerial)
            → HasBadSerial comer.entry }
        ensures steady { K.steady → result ≢ Err DeskError.RecordFault }
    {
        self.law();
        let answer = self.draw(comer);
        self.log.ring(marks_error(&answer));
        answer
    }

    /// Admits as `admit` does, but sets no alarm.
    fn draw(&mut self, comer: Comer<'_>) -> Result<u32, DeskError>
        requires { MayCome comer }
        ensures drawn { Draws self.old (entry_by comer.entry) result self.new }
        ensures steady { K.steady → result ≢ Err DeskError.RecordFault }
    {
        match comer {
            Comer::Client => self.try_join(),
            Comer::Forward(port) => self.try_enter(port),
            Comer::Device(kind, serial) => self.try_attach(kind, serial),
        }
    }

    fn try_join(&mut self) -> Result<u32, DeskError>
        ensures join { Draws self.old Entry.Join result self.new }
        ensures steady { K.steady → result ≢ Err DeskError.RecordFault }
    {
        if let Some(answer) = self.log.shut() {
            return Err(answer);
        }
        match self.hub.join() {
            Err(error) => Err(DeskError::Hub(error)),
            Ok(client) => match self.log.keep_still(Entry::Join { client }) {
                Err(error) => Err(error),
                Ok(()) => Ok(client),
            },
        }
    }

    fn try_enter(&mut self, port: u16) -> Result<u32, DeskError>
        requires { 0 < port }
        ensures enter { Draws self.old (λ n. Entry.Enter n port) result self.new }
        ensures steady { K.steady → result ≢ Err DeskError.RecordFault }
    {
        if let Some(answer) = self.log.shut() {
            return Err(answer);
        }
        match self.hub.enter(port) {
            Err(error) => Err(DeskError::Hub(error)),
            Ok(client) => match self.log.keep_still(Entry::Enter { client, port }) {
                Err(error) => Err(error),
                Ok(()) => Ok(client),
            },
        }
    }

    fn try_attach(&mut self, kind: Kind, serial: &[u8]) -> Result<u32, DeskError>
        ensures attach { Draws self.old (λ n. Entry.Attach n kind serial.now) result self.new }
        ensures steady { K.steady → result ≢ Err DeskError.RecordFault }
    {
        if let Some(answer) = self.log.shut() {
            return Err(answer);
        }
        let Ok(text) = Text::from_slice(self.alloc, serial) else {
            return Err(DeskError::Hub(HubError::OutOfMemory));
        };
        match self.hub.attach(kind, serial) {
            Err(error) => Err(DeskError::Hub(error)),
            Ok(link) => match keep_attach(&mut self.log, link, kind, serial, text) {
                Err(error) => Err(error),
                Ok(()) => Ok(link),
            },
        }
    }
}
