//! The forms of a record's data, by its kind.

ghost use Rattle.std.specs.Prelude.{◌≡◌, ◌<◌, ◌++◌, ℕ, Some, IfOk, drop, option_map};
ghost use Rattle.adb_capture.specs.Lent.{entry_lent};
ghost use Rattle.adb_capture.specs.Records.{cause_at, port_at, plug_at, entry_at};
ghost use Rattle.adb_capture_reader.specs.Forms.{entry_by};

use adb_capture::{Entry, Lent};
use adb_outside::{Cause, HandOut, Kind, Parts, Text};
use byteorder::{ByteOrder, LittleEndian};
use std::alloc::{AllocError, Global};

/// The content of a record beside its number and the bytes of its text.
#[derive(Clone, Copy, Drop)]
pub(crate) enum Form {
    Join,
    Enter(u16),
    Read,
    End(Cause),
    Bound(u16),
    Attach(Kind),
    Recv,
    Detach(Cause),
    Put,
    Send,
}

impl Form {
    /// Parses the data of a record of that kind. Returns `None` if no kind has that letter, or if
    /// the data do not have its form.
    pub(crate) fn of(kind: u8, content: &[u8]) -> Option<Form>
        ensures { (n : ℕ)
            → option_map (λ f. entry_by f n content.now) result ≡ entry_at kind n content.now }
    {
        match kind {
            b'J' if content.is_empty() => Some(Form::Join),
            b'N' => match port_in(content)? {
                0 => None,
                port => Some(Form::Enter(port)),
            },
            b'R' => Some(Form::Read),
            b'E' => Some(Form::End(cause_in(content)?)),
            b'B' => Some(Form::Bound(port_in(content)?)),
            b'A' => Some(Form::Attach(plug_in(*content.first()?)?)),
            b'V' => Some(Form::Recv),
            b'D' => Some(Form::Detach(cause_in(content)?)),
            b'P' => Some(Form::Put),
            b'S' => Some(Form::Send),
            _ => None,
        }
    }

    /// Returns the entry with this number, its texts borrowed from the data.
    pub(crate) fn lent(self, owner: u32, content: &[u8]) -> Lent<'_>
        ensures { entry_lent result ≡ entry_by self owner content.now }
    {
        match self {
            Form::Join => Lent::Join { client: owner },
            Form::Enter(port) => Lent::Enter {
                client: owner,
                port,
            },
            Form::Read => Lent::Read {
                client: owner,
                bytes: content,
            },
            Form::End(cause) => Lent::End {
                client: owner,
                cause,
            },
            Form::Bound(port) => Lent::Bound {
                client: owner,
                port,
            },
            Form::Attach(kind) => Lent::Attach {
                link: owner,
                kind,
                serial: past_first(content),
            },
            Form::Recv => Lent::Recv {
                link: owner,
                bytes: content,
            },
            Form::Detach(cause) => Lent::Detach { link: owner, cause },
            Form::Put => Lent::Put {
                client: owner,
                bytes: whole(content),
            },
            Form::Send => Lent::Send {
                link: owner,
                bytes: whole(content),
            },
        }
    }

    /// Returns the entry with this number, its texts copied from the data.
    pub(crate) fn entry(
        self,
        alloc: Global,
        owner: u32,
        content: &[u8],
    ) -> Result<Entry, AllocError>
        ensures { IfOk result (λ e. e ≡ entry_by self owner content.now) }
    {
        Ok(match self {
            Form::Join => Entry::Join { client: owner },
            Form::Enter(port) => Entry::Enter {
                client: owner,
                port,
            },
            Form::Read => Entry::Read {
                client: owner,
                bytes: Text::from_slice(alloc, content)?,
            },
            Form::End(cause) => Entry::End {
                client: owner,
                cause,
            },
            Form::Bound(port) => Entry::Bound {
                client: owner,
                port,
            },
            Form::Attach(kind) => Entry::Attach {
                link: owner,
                kind,
                serial: Text::from_slice(alloc, past_first(content))?,
            },
            Form::Recv => Entry::Recv {
                link: owner,
                bytes: Text::from_slice(alloc, content)?,
            },
            Form::Detach(cause) => Entry::Detach { link: owner, cause },
            Form::Put => Entry::Put {
                client: owner,
                bytes: HandOut::own(Text::from_slice(alloc, content)?),
            },
            Form::Send => Entry::Send {
                link: owner,
                bytes: HandOut::own(Text::from_slice(alloc, content)?),
            },
        })
    }
}

/// Returns bytes that lie in one part.
fn whole(content: &[u8]) -> Parts<'_>
    ensures { result.start.now ++ result.rest.now ≡ content.now }
{
    Parts {
        start: &[],
        rest: content,
    }
}

fn port_in(content: &[u8]) -> Option<u16>
    ensures { result ≡ port_at content.now }
{
    match content {
        [_, _] => Some(LittleEndian::read_u16(content)),
        _ => None,
    }
}

fn cause_in(content: &[u8]) -> Option<Cause>
    ensures { result ≡ cause_at content.now }
{
    match content {
        [0] => Some(Cause::Eof),
        [1] => Some(Cause::Fault),
        [2] => Some(Cause::Starved),
        [3] => Some(Cause::NoThread),
        _ => None,
    }
}

fn plug_in(letter: u8) -> Option<Kind>
    ensures { result ≡ plug_at letter }
{
    match letter {
        b'u' => Some(Kind::Usb),
        b'l' => Some(Kind::Local),
        _ => None,
    }
}

fn past_first(content: &[u8]) -> &[u8]
    ensures { result.now ≡ drop 1 content.now }
{
    match content {
        [_, rest @ ..] => rest,
        [] => content,
    }
}
