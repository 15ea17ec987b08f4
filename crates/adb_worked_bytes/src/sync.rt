//! Cases of requests to a sync service, and of its answers.

use crate::reader::Reader;
use crate::telling::{tell_bytes, tell_number};
use adb_outside::Text;
use adb_sync::{AnswerReader, AskReader, SyncAnswer, SyncAsk, SyncError};
use std::alloc::{AllocError, Global};

impl Reader for AskReader {
    type Error = SyncError;

    fn take(&mut self, piece: &[u8]) -> Result<(), SyncError> {
        self.feed(piece)
    }

    fn tell_next(&mut self, _alloc: Global, told: &mut Text) -> Result<(), AllocError> {
        match self.next() {
            Some(ask) => tell_ask(&ask, told),
            None => Ok(()),
        }
    }
}

impl Reader for AnswerReader {
    type Error = SyncError;

    fn take(&mut self, piece: &[u8]) -> Result<(), SyncError> {
        self.feed(piece)
    }

    fn tell_next(&mut self, _alloc: Global, told: &mut Text) -> Result<(), AllocError> {
        match self.next() {
            Some(answer) => tell_answer(&answer, told),
            None => Ok(()),
        }
    }
}

fn tell_ask(ask: &SyncAsk, told: &mut Text) -> Result<(), AllocError> {
    match ask {
        SyncAsk::Stat(path) => tell_bytes(told, b"\nstat ", path.as_slice()),
        SyncAsk::List(path) => tell_bytes(told, b"\nlist ", path.as_slice()),
        SyncAsk::Recv(path) => tell_bytes(told, b"\nrecv ", path.as_slice()),
        SyncAsk::Send { path, mode } => tell_send(told, path, mode),
        SyncAsk::Chunk(bytes) => tell_bytes(told, b"\nchunk ", bytes.as_slice()),
        SyncAsk::Finish { mtime } => tell_number(told, b"\nfinish ", u64::from(*mtime)),
        SyncAsk::Quit => told.push_slice(b"\nquit"),
    }
}

fn tell_send(told: &mut Text, path: &Text, mode: &Text) -> Result<(), AllocError> {
    tell_bytes(told, b"\nsend ", path.as_slice())?;
    tell_bytes(told, b" ", mode.as_slice())
}

fn tell_answer(answer: &SyncAnswer, told: &mut Text) -> Result<(), AllocError> {
    match answer {
        SyncAnswer::Stat { mode, size, mtime } => tell_stat(told, b"\nstat ", *mode, *size, *mtime),
        SyncAnswer::Dent {
            mode,
            size,
            mtime,
            name,
        } => tell_entry(told, name, *mode, *size, *mtime),
        SyncAnswer::ListEnd => told.push_slice(b"\nend of the list"),
        SyncAnswer::Chunk(bytes) => tell_bytes(told, b"\nchunk ", bytes.as_slice()),
        SyncAnswer::ChunkEnd => told.push_slice(b"\nend of the chunks"),
        SyncAnswer::Okay => told.push_slice(b"\nokay"),
        SyncAnswer::Fail(text) => tell_bytes(told, b"\nfail ", text.as_slice()),
    }
}

fn tell_entry(
    told: &mut Text,
    name: &Text,
    mode: u32,
    size: u32,
    mtime: u32,
) -> Result<(), AllocError> {
    tell_bytes(told, b"\nentry ", name.as_slice())?;
    tell_stat(told, b" ", mode, size, mtime)
}

fn tell_stat(
    told: &mut Text,
    word: &[u8],
    mode: u32,
    size: u32,
    mtime: u32,
) -> Result<(), AllocError> {
    tell_number(told, word, u64::from(mode))?;
    tell_number(told, b" ", u64::from(size))?;
    tell_number(told, b" ", u64::from(mtime))
}
