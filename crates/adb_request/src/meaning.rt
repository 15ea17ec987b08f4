//! The meaning of a request's text.

ghost use Rattle.std.specs.Prelude.{◌≡◌, ◌+◌, ◌<◌, [], length, IfOk, IfSome, option_map, find};
ghost use Rattle.adb_request.specs.Forms.{is_form};
ghost use Rattle.adb_request.specs.Meaning.{id_in, fixed_request, host_request, split_at, splits_behind, serial_request, id_request, host_meaning, meaning, or_unknown};
ghost use Rattle.adb_request.specs.Rows.{row_of, transport_rows};

use crate::forms::{behind, form, is_form, place_of};
use crate::request::{Request, Which};
use adb_outside::{Selector, Text, read_number};
use std::alloc::{AllocError, Global};

/// Parses a request's text (SERVICES.TXT, "HOST SERVICES"). Every text has a meaning. Fails only if
/// the allocation for a text of the request fails.
#[tactic(auto, unfolding(crate::specs::Meaning::meaning))]
pub fn read(alloc: Global, text: &[u8]) -> Result<Request, AllocError>
    ensures { IfOk result (λ request. request ≡ meaning text.now) }
{
    match host(alloc, text)? {
        Some(request) => Ok(request),
        None => Ok(Request::Service(Text::from_slice(alloc, text)?)),
    }
}

/// Parses a text that asks the host. Returns `None` if it asks a device.
fn host(alloc: Global, text: &[u8]) -> Result<Option<Request>, AllocError>
    ensures { IfOk result (λ request. request ≡ host_meaning text.now) }
{
    if let Some(rest) = behind(b"host:", text) {
        return Ok(Some(or_unknown(host_request(alloc, rest)?)));
    }
    if let Some(rest) = behind(b"host-serial:", text) {
        return Ok(Some(or_unknown(serial_request(alloc, rest)?)));
    }
    if let Some(rest) = behind(b"host-usb:", text) {
        return Ok(Some(or_unknown(form(alloc, Which::By(Selector::Usb), rest)?)));
    }
    if let Some(rest) = behind(b"host-local:", text) {
        return Ok(Some(or_unknown(form(alloc, Which::By(Selector::Local), rest)?)));
    }
    match behind(b"host-transport-id:", text) {
        Some(rest) => Ok(Some(or_unknown(id_request(alloc, rest)?))),
        None => Ok(None),
    }
}

/// Returns the request, or the unknown one if no row fits the text.
fn or_unknown(request: Option<Request>) -> Request
    ensures { result ≡ or_unknown request }
{
    request.unwrap_or(Request::UnknownHost)
}

/// Parses the text after `host:`.
fn host_request(alloc: Global, text: &[u8]) -> Result<Option<Request>, AllocError>
    ensures { IfOk result (λ request. request ≡ host_request text.now) }
{
    if let Some(request) = fixed_request(text) {
        return Ok(Some(request));
    }
    if let Some(serial) = behind(b"transport:", text) {
        let by = Selector::Serial(Text::from_slice(alloc, serial)?);
        return Ok(Some(Request::Transport { by, tell_id: false }));
    }
    if let Some(serial) = behind(b"tport:serial:", text) {
        let by = Selector::Serial(Text::from_slice(alloc, serial)?);
        return Ok(Some(Request::Transport { by, tell_id: true }));
    }
    if let Some(id) = behind(b"transport-id:", text).and_then(read_id) {
        let by = Selector::Id(id);
        return Ok(Some(Request::Transport { by, tell_id: false }));
    }
    form(alloc, Which::Own, text)
}

/// Parses a text after `host:` that has no arguments.
fn fixed_request(text: &[u8]) -> Option<Request>
    ensures { result ≡ fixed_request text.now }
{
    if text == b"version".as_slice() {
        Some(Request::Version)
    } else if text == b"kill".as_slice() {
        Some(Request::Kill)
    } else if text == b"devices".as_slice() {
        Some(Request::Devices { long: false })
    } else if text == b"devices-l".as_slice() {
        Some(Request::Devices { long: true })
    } else if text == b"track-devices".as_slice() {
        Some(Request::Track { long: false })
    } else if text == b"track-devices-l".as_slice() {
        Some(Request::Track { long: true })
    } else {
        fixed_transport(text)
    }
}

/// Parses a text after `host:` that selects a device by its kind.
fn fixed_transport(text: &[u8]) -> Option<Request>
    ensures { result ≡ row_of transport_rows text.now }
{
    let (by, tell_id) = if text == b"transport-usb".as_slice() {
        (Selector::Usb, false)
    } else if text == b"transport-local".as_slice() {
        (Selector::Local, false)
    } else if text == b"transport-any".as_slice() {
        (Selector::Any, false)
    } else if text == b"tport:usb".as_slice() {
        (Selector::Usb, true)
    } else if text == b"tport:local".as_slice() {
        (Selector::Local, true)
    } else if text == b"tport:any".as_slice() {
        (Selector::Any, true)
    } else {
        return None;
    };
    Some(Request::Transport { by, tell_id })
}

/// Parses the text after `host-serial:`. The serial ends at the first colon that a form follows.
fn serial_request(alloc: Global, text: &[u8]) -> Result<Option<Request>, AllocError>
    ensures { IfOk result (λ request. request ≡ serial_request text.now) }
{
    let Some(place) = serial_end(text) else {
        return Ok(None);
    };
    let by = Selector::Serial(Text::from_slice(alloc, &text[..place])?);
    form(alloc, Which::By(by), &text[place + 1..])
}

/// Returns the place of the first colon that a form follows.
fn serial_end(text: &[u8]) -> Option<usize>
    ensures split { option_map (split_at text.now) result
        ≡ find (λ split. is_form split.after) (splits_behind [] text.now) }
    ensures within { IfSome result (λ place. place < length text.now) }
{
    for (place, byte) in text.iter().enumerate() {
        if *byte == b':' && is_form(&text[place + 1..]) {
            return Some(place);
        }
    }
    None
}

/// Parses the text after `host-transport-id:`. The id ends at the first colon.
fn id_request(alloc: Global, text: &[u8]) -> Result<Option<Request>, AllocError>
    ensures { IfOk result (λ request. request ≡ id_request text.now) }
{
    let Some(place) = place_of(text, b':') else {
        return Ok(None);
    };
    match read_id(&text[..place]) {
        None => Ok(None),
        Some(id) => form(alloc, Which::By(Selector::Id(id)), &text[place + 1..]),
    }
}

/// Parses a transport id: 1 to 10 digits of at most 4,294,967,295.
fn read_id(text: &[u8]) -> Option<u32>
    ensures { result ≡ id_in text.now }
{
    let id = read_number(text, 10)?;
    if id <= 4_294_967_295 {
        Some(id as u32)
    } else {
        None
    }
}
