//! The reasons why the rest of a capture is not replayed.

ghost use Rattle.std.specs.Prelude.{◌≡◌};
ghost use Rattle.adb_history.specs.Refusal.{reason_text, reason_of, refusal_by};

use adb_capture::{CaptureError, Why};

/// The reason why a capture is refused, with the offset of the first byte of the refused record.
#[derive(Clone, Copy, Debug, PartialEq, Eq, Drop)]
pub struct Refusal {
    pub offset: u64,
    pub reason: Reason,
}

/// The fault of a capture.
#[derive(Clone, Copy, Debug, PartialEq, Eq, Drop)]
pub enum Reason {
    /// The capture does not begin with the magic.
    BadMagic,
    /// The capture ends within the record.
    Truncated,
    /// The byte is no record's kind.
    UnknownKind,
    /// The record's data are longer than the maximum.
    RecordTooLong,
    /// The record ends past the maximum length of a capture.
    CaptureTooLarge,
    /// The record's data do not have the form that its kind requires.
    BadForm,
    /// The record names a number that was never drawn, or draws another number than the next one.
    NotDrawn,
    /// The record plugs in a device while the maximum number of devices is plugged in.
    TooManyDevices,
    /// The record plugs in a device with a serial that is not allowed.
    BadSerial,
}

impl Reason {
    /// Returns the text of the reason.
    pub fn text(self) -> &'static [u8]
        ensures { result.now ≡ reason_text self }
    {
        match self {
            Reason::BadMagic => b"bad magic",
            Reason::Truncated => b"truncated",
            Reason::UnknownKind => b"unknown kind",
            Reason::RecordTooLong => b"record too long",
            Reason::CaptureTooLarge => b"capture too large",
            Reason::BadForm => b"bad form",
            Reason::NotDrawn => b"number not drawn",
            Reason::TooManyDevices => b"too many devices",
            Reason::BadSerial => b"bad serial",
        }
    }
}

impl Refusal {
    /// Returns the refusal of a capture, given the error of its reader; `None` if the source failed
    /// or an allocation failed, which refuses nothing.
    pub fn by(error: CaptureError) -> Option<Refusal>
        ensures { result ≡ refusal_by error }
    {
        match error {
            CaptureError::BadMagic => Some(Refusal {
                offset: 0,
                reason: Reason::BadMagic,
            }),
            CaptureError::BadRecord { offset, why } => Some(Refusal {
                offset,
                reason: reason_for(why),
            }),
            CaptureError::Truncated { offset } => Some(Refusal {
                offset,
                reason: Reason::Truncated,
            }),
            CaptureError::TooLong { offset } => Some(Refusal {
                offset,
                reason: Reason::CaptureTooLarge,
            }),
            CaptureError::ReadFault => None,
            CaptureError::OutOfMemory => None,
        }
    }
}

fn reason_for(why: Why) -> Reason
    ensures { result ≡ reason_of why }
{
    match why {
        Why::UnknownKind => Reason::UnknownKind,
        Why::BadForm => Reason::BadForm,
        Why::TooLarge => Reason::RecordTooLong,
    }
}
