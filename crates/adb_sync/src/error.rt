//! Faults of a stream of requests or answers.

ghost use Rattle.std.specs.Prelude.{◌≡◌};
ghost use Rattle.adb_sync.specs.Messages.{error_of, failure_of, told_by};

use adb_outside::FeedError;

/// A rule of requests and answers.
#[derive(Clone, Copy, Debug, PartialEq, Eq, Drop)]
pub enum SyncRule {
    /// No request, or no answer, has this id, or bytes follow a QUIT.
    UnknownId,
    /// The path of a request has more than 1,024 bytes.
    PathTooLong,
    /// The text of a SEND has no comma.
    BadSend,
    /// A DATA has more than 65,536 bytes.
    ChunkTooLong,
    /// A DATA or a DONE outside a SEND, or anything else inside one.
    BadPlace,
}

/// The reason why a stream is no stream of requests, or of answers, from some place on. The offset
/// is that of the first byte of the request or answer, counted from the first byte of the stream;
/// each DATA and DONE counts as one of its own. Past 2^64 - 1 it stays there.
#[derive(Clone, Copy, Debug, PartialEq, Eq, Drop)]
pub struct SyncFault {
    pub offset: u64,
    /// The rule that is broken there.
    pub rule: SyncRule,
}

/// The reason why bytes were not taken. An offset is that of a [`SyncFault`].
#[derive(Clone, Copy, Debug, PartialEq, Eq, Drop)]
pub enum SyncError {
    /// An allocation failed. Nothing changed.
    OutOfMemory,
    /// No request, or no answer, has this id, or bytes follow a QUIT.
    UnknownId { offset: u64 },
    /// The path of a request has more than 1,024 bytes.
    PathTooLong { offset: u64 },
    /// The text of a SEND has no comma.
    BadSend { offset: u64 },
    /// A DATA has more than 65,536 bytes.
    ChunkTooLong { offset: u64 },
    /// A DATA or a DONE outside a SEND, or anything else inside one.
    BadPlace { offset: u64 },
}

impl SyncError {
    /// Returns the fault of the stream that this error reports; `None` for an allocation failure.
    pub fn fault(self) -> Option<SyncFault>
        ensures { result ≡ told_by self }
    {
        let (offset, rule) = match self {
            SyncError::OutOfMemory => return None,
            SyncError::UnknownId { offset } => (offset, SyncRule::UnknownId),
            SyncError::PathTooLong { offset } => (offset, SyncRule::PathTooLong),
            SyncError::BadSend { offset } => (offset, SyncRule::BadSend),
            SyncError::ChunkTooLong { offset } => (offset, SyncRule::ChunkTooLong),
            SyncError::BadPlace { offset } => (offset, SyncRule::BadPlace),
        };
        Some(SyncFault { offset, rule })
    }
}

impl From<SyncFault> for SyncError {
    ghost use Rattle.std.specs.Prelude.{◌≡◌};

    ghost from_gives = { λ fault error. error ≡ error_of fault };

    fn from(fault: SyncFault) -> SyncError {
        let offset = fault.offset;
        match fault.rule {
            SyncRule::UnknownId => SyncError::UnknownId { offset },
            SyncRule::PathTooLong => SyncError::PathTooLong { offset },
            SyncRule::BadSend => SyncError::BadSend { offset },
            SyncRule::ChunkTooLong => SyncError::ChunkTooLong { offset },
            SyncRule::BadPlace => SyncError::BadPlace { offset },
        }
    }
}

impl From<FeedError<SyncFault>> for SyncError {
    ghost use Rattle.std.specs.Prelude.{◌≡◌};

    ghost from_gives = { λ failure error. error ≡ failure_of failure };

    fn from(failure: FeedError<SyncFault>) -> SyncError {
        match failure {
            FeedError::OutOfMemory => SyncError::OutOfMemory,
            FeedError::Fault(fault) => fault.into(),
        }
    }
}
