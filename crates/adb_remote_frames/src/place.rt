//! The format that cuts a server's answer into frames.

ghost use Rattle.std.specs.Prelude.{◌≡◌, ℕ, drop};

use crate::frame::Frame;
use crate::head::Awaited;
use adb_outside::{Format, Front, Text};
use std::alloc::{AllocError, Global};

/// The format of frames of one kind, the first of which begins at an offset of the answer. A fault
/// is the offset of the first byte after which no frame of the kind can follow.
#[derive(Clone, Copy)]
pub struct Place {
    pub awaited: Awaited,
    pub offset: u64,
}

impl Format<Frame, u64> for Place {
    ghost use Rattle.std.specs.Prelude.{◌≡◌, ℕ, length};
    ghost use Rattle.adb_remote_frames.specs.Frames.{frame_at, frame_of, past_frame};
    ghost use Rattle.adb_remote_frames.specs.Framed.{frames_are_framed};

    ghost find = { frame_at };

    ghost item = { frame_of };

    ghost after = { past_frame };

    ghost framing = { frames_are_framed };

    fn front(&self, bytes: &[u8]) -> Front<u64> {
        self.awaited.found(self.offset, bytes)
    }

    fn read(&self, alloc: Global, frame: &[u8]) -> Result<Frame, AllocError> {
        Ok(match self.awaited {
            Awaited::Status => Frame::Fail(Text::from_slice(alloc, behind(frame, 8))?),
            Awaited::List => Frame::List(Text::from_slice(alloc, behind(frame, 4))?),
            Awaited::Packet => Frame::Packet {
                id: frame.first().copied().unwrap_or(0),
                bytes: Text::from_slice(alloc, behind(frame, 5))?,
            },
        })
    }

    fn past(&self, frame: &[u8]) -> Place {
        Place {
            awaited: self.awaited,
            offset: self.offset.saturating_add(frame.len() as u64),
        }
    }
}

/// Returns the bytes after the first `n`.
fn behind(bytes: &[u8], n: usize) -> &[u8]
    ensures { result.now ≡ drop n bytes.now }
{
    &bytes[n.min(bytes.len())..]
}
