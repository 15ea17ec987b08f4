//! The framing of a stream of requests.

use crate::ask::SyncAsk;
use crate::ask_id::AskId;
use crate::comma::send_of;
use crate::error::{SyncFault, SyncRule};
use crate::layout::{Layout, WORD_BYTES, front_behind};
use adb_outside::{Format, Front, Text};
use byteorder::{ByteOrder, LittleEndian};
use std::alloc::{AllocError, Global};

/// The format of requests, the first of which begins at an offset of the stream, inside a SEND or
/// outside one.
#[derive(Clone, Copy)]
pub struct AskFormat {
    pub offset: u64,
    pub sending: bool,
}

impl AskFormat {
    ghost use Rattle.std.specs.Prelude.{◌≡◌, IfOk};
    ghost use Rattle.adb_sync.specs.Messages.{HasHead};
    ghost use Rattle.adb_sync.specs.Asks.{asked_at};

    /// Returns the layout after an id, or the rule that the id breaks here.
    fn layout(&self, id: &[u8]) -> Result<Layout, SyncRule>
        ensures value { result ≡ asked_at self.now id.now }
        ensures head { IfOk result HasHead }
    {
        match AskId::of(id) {
            Some(id) if id.is_in_place(self.sending) => Ok(id.layout()),
            None if !self.sending => Err(SyncRule::UnknownId),
            _ => Err(SyncRule::BadPlace),
        }
    }
}

impl Format<SyncAsk, SyncFault> for AskFormat {
    ghost use Rattle.std.specs.Prelude.{◌≡◌, List, ℕ, IfOk};
    ghost use Rattle.adb_sync.specs.Asks.{ask_front, ask_of, past_ask};
    ghost use Rattle.adb_sync.specs.Framed.{asks_are_framed};

    ghost find = { ask_front };

    ghost item = { ask_of };

    ghost after = { past_ask };

    ghost framing = { asks_are_framed };

    fn front(&self, bytes: &[u8]) -> Front<SyncFault> {
        if bytes.len() < WORD_BYTES {
            return Front::More;
        }
        let (id, rest) = bytes.split_at(WORD_BYTES);
        front_behind(self.offset, self.layout(id), rest)
    }

    fn read(&self, alloc: Global, frame: &[u8]) -> Result<SyncAsk, AllocError> {
        let (id, rest) = frame.split_at(WORD_BYTES);
        let (number, body) = rest.split_at(WORD_BYTES);
        match AskId::of(id) {
            Some(AskId::Stat) => Ok(SyncAsk::Stat(Text::from_slice(alloc, body)?)),
            Some(AskId::List) => Ok(SyncAsk::List(Text::from_slice(alloc, body)?)),
            Some(AskId::Recv) => Ok(SyncAsk::Recv(Text::from_slice(alloc, body)?)),
            Some(AskId::Send) => send_of(alloc, body),
            Some(AskId::Data) => Ok(SyncAsk::Chunk(Text::from_slice(alloc, body)?)),
            Some(AskId::Done) => Ok(SyncAsk::Finish {
                mtime: LittleEndian::read_u32(number),
            }),
            Some(AskId::Quit) | None => Ok(SyncAsk::Quit),
        }
    }

    fn past(&self, frame: &[u8]) -> AskFormat {
        let (id, _) = frame.split_at(WORD_BYTES);
        AskFormat {
            offset: self.offset.saturating_add(frame.len() as u64),
            sending: matches!(AskId::of(id), Some(AskId::Send | AskId::Data)),
        }
    }
}
