//! The ids of requests.

ghost use Rattle.std.specs.Prelude.{◌≡◌};
ghost use Rattle.adb_sync.specs.Messages.{HasHead};
ghost use Rattle.adb_sync.specs.Asks.{ask_id_of, ask_layout, is_in_place};

use crate::error::SyncRule;
use crate::layout::{Layout, Limit, WORD_BYTES};

/// The four letters that a request begins with.
#[derive(Clone, Copy, Debug, PartialEq, Eq)]
pub enum AskId {
    Stat,
    List,
    Recv,
    Send,
    Data,
    Done,
    Quit,
}

impl AskId {
    /// Returns the id that four bytes are, if they are one.
    pub fn of(bytes: &[u8]) -> Option<AskId>
        ensures { result ≡ ask_id_of bytes.now }
    {
        if bytes == b"STAT".as_slice() {
            Some(AskId::Stat)
        } else if bytes == b"LIST".as_slice() {
            Some(AskId::List)
        } else if bytes == b"RECV".as_slice() {
            Some(AskId::Recv)
        } else if bytes == b"SEND".as_slice() {
            Some(AskId::Send)
        } else if bytes == b"DATA".as_slice() {
            Some(AskId::Data)
        } else if bytes == b"DONE".as_slice() {
            Some(AskId::Done)
        } else if bytes == b"QUIT".as_slice() {
            Some(AskId::Quit)
        } else {
            None
        }
    }

    /// Returns whether the request is allowed at a place inside a SEND, or outside one.
    pub fn is_in_place(self, sending: bool) -> bool
        ensures { result ≡ is_in_place sending self }
    {
        match self {
            AskId::Data | AskId::Done => sending,
            AskId::Stat | AskId::List | AskId::Recv | AskId::Send | AskId::Quit => !sending,
        }
    }

    /// Returns the layout of the bytes after the id.
    pub fn layout(self) -> Layout
        ensures value { result ≡ ask_layout self }
        ensures head { HasHead result }
    {
        match self {
            AskId::Stat | AskId::List | AskId::Recv => Layout::text(1, Some(Limit::of_path())),
            AskId::Send => Layout {
                head: WORD_BYTES,
                limit: Some(Limit::of_path()),
                counted: true,
                comma: true,
            },
            AskId::Data => Layout::text(1, Some(Limit::of_chunk())),
            AskId::Done => Layout::numbers(1),
            AskId::Quit => Layout {
                head: WORD_BYTES,
                limit: Some(Limit {
                    most: 0,
                    rule: SyncRule::UnknownId,
                }),
                counted: false,
                comma: false,
            },
        }
    }
}
