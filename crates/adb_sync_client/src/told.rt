//! The content of the whole answers so far.

ghost use Rattle.std.specs.Prelude.{◌≡◌, ℕ, IfOk, OnOk};
ghost use Rattle.adb_sync_client.specs.Values.{next_of, told_by, told_nothing};

use crate::step::StatValue;
use adb_outside::Text;
use adb_sync::{Dirent, SyncAnswer};
use std::alloc::{AllocError, Global};
use std::marker::Model;
use std::mem;

/// The continuation after a whole answer.
#[derive(Drop)]
pub enum Next {
    /// Further answers.
    GoesOn,
    /// Nothing: the request was done.
    Done,
    /// Nothing: the request was refused.
    Refused(Text),
}

/// The bytes of the chunks, the numbers of the STAT, and the entries of the list.
#[derive(Drop)]
pub struct Told {
    alloc: Global,
    pub bytes: Text,
    pub stat: StatValue,
    pub entries: Vec<Dirent>,
}

impl Model for Told {
    ghost use Rattle.adb_sync_client.specs.Values.{Said};

    ghost Value = { Said };

    ghost view = { λ told. record {
      bytes = told.bytes;
      stat = told.stat;
      entries = told.entries.items;
    } };
}

impl Told {
    /// Returns the content before the first answer. Allocates nothing.
    pub fn new(alloc: Global) -> Told
        ensures { result ≡ told_nothing }
    {
        Told {
            alloc,
            bytes: Text::new(alloc),
            stat: StatValue {
                mode: 0,
                size: 0,
                mtime: 0,
            },
            entries: Vec::new(alloc),
        }
    }

    /// Moves the bytes of the chunks out. Allocates nothing.
    pub fn give_bytes(&mut self) -> Text
        ensures { result ≡ self.old.bytes }
    {
        mem::replace(&mut self.bytes, Text::new(self.alloc))
    }

    /// Moves the entries of the list out. Allocates nothing.
    pub fn give_entries(&mut self) -> Vec<Dirent>
        ensures { result.items ≡ self.old.entries }
    {
        mem::replace(&mut self.entries, Vec::new(self.alloc))
    }

    /// Takes the next answer, and returns the continuation.
    pub fn take(&mut self, answer: SyncAnswer) -> Result<Next, AllocError>
        ensures next { IfOk result (λ next. next ≡ next_of answer) }
        ensures told { OnOk result (self.new ≡ told_by self.old answer) }
    {
        match answer {
            SyncAnswer::Chunk(bytes) => {
                self.bytes.push_slice(bytes.as_slice())?;
                Ok(Next::GoesOn)
            }
            SyncAnswer::Dent {
                mode,
                size,
                mtime,
                name,
            } => {
                self.entries.push(Dirent {
                    name,
                    mode,
                    size,
                    mtime,
                })?;
                Ok(Next::GoesOn)
            }
            SyncAnswer::Stat { mode, size, mtime } => {
                self.stat = StatValue { mode, size, mtime };
                Ok(Next::Done)
            }
            SyncAnswer::Okay | SyncAnswer::ChunkEnd | SyncAnswer::ListEnd => Ok(Next::Done),
            SyncAnswer::Fail(text) => Ok(Next::Refused(text)),
        }
    }
}
