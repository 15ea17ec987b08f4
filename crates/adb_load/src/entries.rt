//! The entry of an act of a load.

ghost use Rattle.std.specs.Prelude.{◌≡◌, IfOk};
ghost use Rattle.adb_capture.specs.Records.{HasRecord};
ghost use Rattle.adb_load.specs.Acts.{entry_of};

use crate::act::Act;
use crate::names::{client_of, link_of};
use crate::patterns::Pattern;
use crate::texts::{answer, asked_of, bare_packet, greeting, serial_of, up_bytes};
use adb_capture::Entry;
use adb_outside::{Cause, Kind};
use adb_wire::Command;
use std::alloc::{AllocError, Global};

/// Returns the entry of an act. It has a record.
#[tactic(auto, using(crate::proofs::Records::have_records))]
pub(crate) fn entry(alloc: Global, pattern: &Pattern, act: Act) -> Result<Entry, AllocError>
    ensures told { IfOk result (λ e. e ≡ entry_of act) }
    ensures form { IfOk result HasRecord }
{
    Ok(match act {
        Act::Plug { link } => Entry::Attach {
            link: u32::from(link),
            kind: Kind::Usb,
            serial: serial_of(alloc, link)?,
        },
        Act::Greet { link } => Entry::Recv {
            link: u32::from(link),
            bytes: greeting(alloc)?,
        },
        Act::Come { stream } => Entry::Join {
            client: client_of(stream),
        },
        Act::Ask { stream } => Entry::Read {
            client: client_of(stream),
            bytes: asked_of(alloc, stream)?,
        },
        Act::Accept { stream } | Act::Acknowledge { stream } => Entry::Recv {
            link: link_of(stream),
            bytes: bare_packet(alloc, Command::Okay, stream)?,
        },
        Act::Write {
            stream,
            from,
            count,
        } => Entry::Read {
            client: client_of(stream),
            bytes: up_bytes(alloc, pattern, stream, from, count)?,
        },
        Act::Answer {
            stream,
            from,
            count,
            piece,
        } => Entry::Recv {
            link: link_of(stream),
            bytes: answer(alloc, pattern, stream, from, count, piece)?,
        },
        Act::Leave { stream } => Entry::End {
            client: client_of(stream),
            cause: Cause::Eof,
        },
        Act::Close { stream } => Entry::Recv {
            link: link_of(stream),
            bytes: bare_packet(alloc, Command::Clse, stream)?,
        },
    })
}
