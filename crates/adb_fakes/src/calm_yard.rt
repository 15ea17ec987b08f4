//! A yard that never fails.

ghost use Rattle.std.specs.Prelude.{◌≡◌, [], OnErr, OnOk};

use crate::calm_door::{Caller, CalmBinder, CalmDoor};
use crate::calm_out::CalmOut;
use crate::sent::Sent;
use crate::yard::{PIECE, listening_port};
use adb_connections::{MemoryIn, OpenGate, SilentBell};
use adb_outside::Text;
use adb_recorder::MemoryRecorder;
use adb_server_yard::{Dialled, Listening, PoolKind, Yard};
use std::alloc::{AllocError, Global};
use std::collections::VecDeque;
use std::marker::Model;
use std::sync::Wait;

/// A yard in which nothing ever fails. It proves that the premises of a server can hold together:
/// the yard and its door are steady, the yard is lasting if `lasts`, and contracts see the entries
/// that its recorder has kept, and the answer to a client tool.
#[derive(Drop)]
pub struct CalmYard<W: Wait + Copy + Drop> {
    rt: W,
    alloc: Global,
    coming: VecDeque<Caller<W>>,
    lasts: bool,
    answer: Text,
    asked: Option<Sent<W>>,
}

impl<W: Wait + Copy + Drop> Model for CalmYard<W> {
    ghost use Rattle.adb_fakes.specs.Fakes.{CalmYardView};

    ghost Value = { CalmYardView };

    ghost view = { λ yard. record { lasts = yard.lasts; answers = yard.answer } };
}

impl<W: Wait + Copy + Drop> CalmYard<W> {
    /// Returns a yard without clients. Its door never closes if `lasts`.
    pub fn new(rt: W, alloc: Global, lasts: bool) -> CalmYard<W>
        ensures { result ≡ record { lasts = lasts; answers = [] } }
    {
        CalmYard {
            rt,
            alloc,
            coming: VecDeque::new(alloc),
            lasts,
            answer: Text::new(alloc),
            asked: None,
        }
    }

    /// Adds a client that sends these bytes. Returns a handle of the bytes that it is sent.
    ///
    /// `Err`: an allocation failed, and the client is not added.
    pub fn call(&mut self, bytes: &[u8]) -> Result<Sent<W>, AllocError>
        ensures { self.new ≡ self.old }
    {
        self.call_at(0, bytes)
    }

    /// Adds a client as `call` does. It comes through the forward of a port, unless `port` is 0.
    pub fn call_at(&mut self, port: u16, bytes: &[u8]) -> Result<Sent<W>, AllocError>
        ensures { self.new ≡ self.old }
    {
        let sent = Sent::new(self.rt, self.alloc)?;
        let caller = Caller {
            port,
            input: MemoryIn::new(
                Text::from_slice(self.alloc, bytes)?,
                PIECE,
                Vec::new(self.alloc),
            ),
            output: CalmOut::new(Some(sent.handle()?)),
        };
        self.coming.push_back(caller)?;
        Ok(sent)
    }

    /// Makes the next dialled connection yield these bytes. Returns a handle of the bytes that the
    /// connection is sent.
    ///
    /// `Err`: an allocation failed, and the yard is unchanged.
    pub fn answer(&mut self, bytes: &[u8]) -> Result<Sent<W>, AllocError>
        ensures ok { OnOk result (self.new ≡ record self.old { answers = bytes.now }) }
        ensures err { OnErr result (self.new ≡ self.old) }
    {
        let answer = Text::from_slice(self.alloc, bytes)?;
        let sent = Sent::new(self.rt, self.alloc)?;
        let asked = sent.handle()?;
        self.answer = answer;
        self.asked = Some(asked);
        Ok(sent)
    }
}

impl<W: Wait + Copy + Send + Sync + Drop + 'static> Yard for CalmYard<W> {
    type Door = CalmDoor<W>;

    type Bell = SilentBell;

    type Keeper = MemoryRecorder;

    type Ports = CalmBinder;

    type Gate = OpenGate;

    type DialIn = MemoryIn;

    type DialOut = CalmOut<W>;

    ghost use Rattle.std.specs.Prelude.{◌≡◌, Some, true, ⊤};
    ghost use Rattle.adb_fakes.specs.Fakes.{listening_port};

    ghost faults = { λ yard. 0 };

    ghost steady = { λ yard. ⊤ };

    ghost lasting = { λ yard. yard.lasts ≡ true };

    ghost answers = { λ yard. Some yard.answers };

    ghost here = { λ yard port. Some (listening_port port) };

    ghost records = { λ yard wanted. ⊤ };

    fn listen(&mut self, port: u16) -> Listening<CalmDoor<W>, SilentBell> {
        let mut coming = VecDeque::new(self.alloc);
        std::mem::swap(&mut coming, &mut self.coming);
        let door = CalmDoor::new(self.alloc, coming, self.lasts);
        Listening::Here(door, SilentBell::new(), listening_port(port))
    }

    fn recorder(&mut self, _wanted: bool) -> MemoryRecorder {
        MemoryRecorder::new(self.alloc, Vec::new(self.alloc))
    }

    fn pool_kind(&mut self) -> PoolKind {
        PoolKind::Inline {
            failing: Vec::new(self.alloc),
        }
    }

    fn ports(&mut self) -> CalmBinder {
        CalmBinder::new()
    }

    fn gate(&mut self) -> OpenGate {
        OpenGate::new()
    }

    fn dial(&mut self, _port: u16) -> Dialled<MemoryIn, CalmOut<W>> {
        let mut answer = Text::new(self.alloc);
        std::mem::swap(&mut answer, &mut self.answer);
        let input = MemoryIn::new(answer, PIECE, Vec::new(self.alloc));
        Dialled::Here(input, CalmOut::new(self.asked.take()))
    }
}
