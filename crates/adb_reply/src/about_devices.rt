//! Replies about devices.

ghost use Rattle.std.specs.Prelude.{◌≡◌, ◌<◌, ◌^◌, length, true, IfOk};
ghost use Rattle.adb_outside.specs.Tables.{at};
ghost use Rattle.adb_reply.specs.Strings.{told};
ghost use Rattle.adb_reply.specs.Chosen.{device_by};
ghost use Rattle.adb_reply.specs.Answer.{device_list, selects, path_of, asks_ready, fact_at, fact_answer, opens};

use crate::answer::{Answer, Next};
use crate::chosen::{Chosen, choose, choose_by, no_transport};
use crate::strings::{failed, told};
use adb_outside::{Kind, Selector, Text, state_text};
use adb_registry::{Registry, Row};
use adb_request::Which;
use byteorder::{ByteOrder, LittleEndian};
use itoa::Buffer;
use std::alloc::{AllocError, Global};

/// A fact that a request asks of one device.
#[derive(Clone, Copy, Debug, PartialEq, Eq, Drop)]
pub(crate) enum Fact {
    Serialno,
    Devpath,
    GetState,
    Features,
}

impl Fact {
    /// Returns whether the device must have sent its identity: features are asked only of such a
    /// device, the other facts of any.
    fn asks_ready(self) -> bool
        ensures { result ≡ asks_ready self }
    {
        matches!(self, Fact::Features)
    }
}

/// Returns the answer with the list of the devices, and the action that follows.
pub(crate) fn list(
    alloc: Global,
    registry: &Registry,
    long: bool,
    next: Next,
) -> Result<Answer, AllocError>
    ensures { IfOk result (λ answer. answer ≡ told (device_list registry.now.rows long) next) }
{
    let list = if long {
        registry.long_list()?
    } else {
        registry.short_list()?
    };
    told(alloc, list.as_slice(), next)
}

/// Returns the answer to a request that selects the device of a selector.
pub(crate) fn select(
    alloc: Global,
    registry: &Registry,
    by: &Selector,
    tell_id: bool,
) -> Result<Answer, AllocError>
    ensures { IfOk result (λ answer.
        answer ≡ selects tell_id (device_by registry.now.rows by.now true)) }
{
    match choose_by(alloc, registry, by, true)? {
        Chosen::Refused(answer) => Ok(answer),
        Chosen::Device(id) => selected(alloc, id, tell_id),
    }
}

/// Returns the answer after a device was selected, with its transport id in 8 bytes if the request
/// asks for it.
fn selected(alloc: Global, id: u32, tell_id: bool) -> Result<Answer, AllocError>
    ensures { IfOk result (λ answer. answer ≡ selects tell_id (Chosen.Device id)) }
{
    let mut bytes = Text::from_slice(alloc, b"OKAY")?;
    if tell_id {
        let mut word = [0; 8];
        LittleEndian::write_u64(&mut word, u64::from(id));
        bytes.push_slice(&word)?;
    }
    Ok(Answer {
        bytes,
        next: Next::Select(id),
    })
}

/// Returns the answer with a fact of the device that a request asks.
pub(crate) fn tell(
    alloc: Global,
    registry: &Registry,
    selected: Option<u32>,
    fact: Fact,
    on: &Which,
) -> Result<Answer, AllocError>
    ensures { IfOk result (λ answer.
        answer ≡ fact_answer registry.now.rows selected fact on.now) }
{
    match choose(alloc, registry, selected, on, fact.asks_ready())? {
        Chosen::Refused(answer) => Ok(answer),
        Chosen::Device(id) => tell_of(alloc, registry, id, fact),
    }
}

/// Returns the answer with a fact of the device of a transport id.
fn tell_of(alloc: Global, registry: &Registry, id: u32, fact: Fact) -> Result<Answer, AllocError>
    ensures { IfOk result (λ answer. answer ≡ fact_at fact (at id registry.now.rows)) }
{
    let Some(row) = registry.row(id) else {
        return no_transport(alloc);
    };
    match fact {
        Fact::Serialno => told(alloc, row.serial.as_slice(), Next::Close),
        Fact::Devpath => {
            let path = path_of(alloc, row)?;
            told(alloc, path.as_slice(), Next::Close)
        }
        Fact::GetState => told(alloc, state_text(row.state), Next::Close),
        Fact::Features => match &row.identity {
            None => told(alloc, b"", Next::Close),
            Some(identity) => told(alloc, identity.features.as_slice(), Next::Close),
        },
    }
}

/// Returns where a device is plugged in.
fn path_of(alloc: Global, row: &Row) -> Result<Text, AllocError>
    ensures path { IfOk result (λ path. path ≡ path_of row.now.kind row.now.id) }
    ensures short { IfOk result (λ path. length path < 2 ^ 16) }
{
    match row.kind {
        Kind::Local => Text::from_slice(alloc, b"unknown"),
        Kind::Usb => {
            let mut path = Text::from_slice(alloc, b"usb:")?;
            path.push_slice(Buffer::new().format(row.id).as_bytes())?;
            Ok(path)
        }
    }
}

/// Returns the answer that opens a service of the device that the connection selected.
pub(crate) fn open(
    alloc: Global,
    registry: &Registry,
    selected: Option<u32>,
    service: &Text,
) -> Result<Answer, AllocError>
    ensures { IfOk result (λ answer. answer ≡ opens registry.now.rows selected service.now) }
{
    let Some(transport) = selected else {
        return no_transport(alloc);
    };
    let Some(row) = registry.row(transport) else {
        return no_transport(alloc);
    };
    if service.len() >= row.maxdata as usize {
        return failed(alloc, b"service name too long");
    }
    Ok(Answer {
        bytes: Text::new(alloc),
        next: Next::Open {
            transport,
            service: Text::from_slice(alloc, service.as_slice())?,
        },
    })
}
