//! The faults of a capture.

/// The fault of a record.
#[derive(Clone, Copy, Debug, PartialEq, Eq, Drop)]
pub enum Why {
    /// The byte is no record's kind.
    UnknownKind,
    /// The data do not have the form that the kind requires.
    BadForm,
    /// The data are longer than 2,097,152 bytes.
    TooLarge,
}

/// The reason why some bytes begin no record. An offset is that of their first byte in the capture.
#[derive(Clone, Copy, Debug, PartialEq, Eq, Drop)]
pub enum FormFault {
    BadRecord { offset: u64, why: Why },
    /// The record ends past byte 1,073,741,824 of the capture.
    TooLong { offset: u64 },
}

/// The reason why no record is read. An offset is that of the record's first byte in the capture.
#[derive(Clone, Copy, Debug, PartialEq, Eq, Drop)]
pub enum CaptureError {
    /// The capture does not begin with the magic.
    BadMagic,
    BadRecord { offset: u64, why: Why },
    /// The capture ends within the record.
    Truncated { offset: u64 },
    /// The record ends past byte 1,073,741,824 of the capture.
    TooLong { offset: u64 },
    /// A read of the source failed.
    ReadFault,
    /// An allocation failed. The next call returns the same record.
    OutOfMemory,
}

impl From<FormFault> for CaptureError {
    ghost use Rattle.std.specs.Prelude.{◌≡◌};
    ghost use Rattle.adb_capture.specs.Faults.{error_of};

    ghost from_gives = { λ fault e. e ≡ error_of fault };

    fn from(fault: FormFault) -> CaptureError {
        match fault {
            FormFault::BadRecord { offset, why } => CaptureError::BadRecord { offset, why },
            FormFault::TooLong { offset } => CaptureError::TooLong { offset },
        }
    }
}
