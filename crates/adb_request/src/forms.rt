//! The forms of requests that follow a prefix.

ghost use Rattle.std.specs.Prelude.{◌≡◌, ◌==◌, ◌<◌, length, IfOk, IfSome, option_copied, position};
ghost use Rattle.adb_request.specs.Forms.{behind, local_in, is_remote, forward_between, forward_of, killed_at, fixed_form, forward_form, form, is_fixed, is_form};

use crate::request::{Request, Which};
use adb_outside::{MAX_REMOTE, Text, is_graphic, read_number};
use std::alloc::{AllocError, Global};

/// Returns the rest of a text that begins with a word.
pub(crate) fn behind<'a>(word: &[u8], text: &'a [u8]) -> Option<&'a [u8]>
    ensures { option_copied result ≡ behind word.now text.now }
{
    if text.starts_with(word) {
        Some(&text[word.len()..])
    } else {
        None
    }
}

/// Parses the form that follows a prefix. Returns `None` if the text is none of the forms.
pub(crate) fn form(alloc: Global, on: Which, text: &[u8]) -> Result<Option<Request>, AllocError>
    ensures { IfOk result (λ request. request ≡ form on text.now) }
{
    if is_fixed(text) {
        return Ok(fixed_form(on, text));
    }
    forward_form(alloc, on, text)
}

/// Parses a form that says nothing but which device it asks.
fn fixed_form(on: Which, text: &[u8]) -> Option<Request>
    ensures { result ≡ fixed_form on text.now }
{
    if text == b"get-serialno".as_slice() {
        Some(Request::Serialno(on))
    } else if text == b"get-devpath".as_slice() {
        Some(Request::Devpath(on))
    } else if text == b"get-state".as_slice() {
        Some(Request::GetState(on))
    } else if text == b"features".as_slice() {
        Some(Request::Features(on))
    } else if text == b"killforward-all".as_slice() {
        Some(Request::KillAll)
    } else if text == b"list-forward".as_slice() {
        Some(Request::ListForward)
    } else {
        None
    }
}

/// Parses a form that names a forward.
fn forward_form(alloc: Global, on: Which, text: &[u8]) -> Result<Option<Request>, AllocError>
    ensures { IfOk result (λ request. request ≡ forward_form on text.now) }
{
    if let Some(spec) = behind(b"forward:norebind:", text) {
        return Ok(Some(forward(alloc, on, true, spec)?));
    }
    if let Some(spec) = behind(b"forward:", text) {
        return Ok(Some(forward(alloc, on, false, spec)?));
    }
    match behind(b"killforward:", text) {
        Some(local) => Ok(Some(kill_forward(local))),
        None => Ok(None),
    }
}

/// Returns whether a text is one of the forms that follow a prefix.
pub(crate) fn is_form(text: &[u8]) -> bool
    ensures { result ≡ is_form text.now }
{
    is_fixed(text) || text.starts_with(b"forward:") || text.starts_with(b"killforward:")
}

/// Returns whether a text is one of the forms that name nothing.
fn is_fixed(text: &[u8]) -> bool
    ensures { result ≡ is_fixed text.now }
{
    text == b"get-serialno".as_slice()
        || text == b"get-devpath".as_slice()
        || text == b"get-state".as_slice()
        || text == b"features".as_slice()
        || text == b"killforward-all".as_slice()
        || text == b"list-forward".as_slice()
}

/// Parses a forward's specification `<local>;<remote>`, which is cut at its first `;`.
fn forward(alloc: Global, on: Which, norebind: bool, spec: &[u8]) -> Result<Request, AllocError>
    ensures { IfOk result (λ request. request ≡ forward_of on norebind spec.now) }
{
    match place_of(spec, b';') {
        None => Ok(Request::BadForward),
        Some(place) => {
            let local = read_local(&spec[..place]);
            forward_between(alloc, on, norebind, local, &spec[place + 1..])
        }
    }
}

/// Returns the place of the first such byte, if there is one.
pub(crate) fn place_of(text: &[u8], wanted: u8) -> Option<usize>
    ensures place { result ≡ position (λ byte. byte == wanted) text.now }
    ensures within { IfSome result (λ place. place < length text.now) }
{
    text.iter().position(|byte| *byte == wanted)
}

/// Returns the request for a forward between two ends.
fn forward_between(
    alloc: Global,
    on: Which,
    norebind: bool,
    local: Option<u16>,
    remote: &[u8],
) -> Result<Request, AllocError>
    ensures { IfOk result (λ request. request ≡ forward_between on norebind local remote.now) }
{
    match local {
        Some(local) if is_remote(remote) => Ok(Request::Forward {
            on,
            norebind,
            local,
            remote: Text::from_slice(alloc, remote)?,
        }),
        _ => Ok(Request::BadForward),
    }
}

/// Returns the request to end the forward of a local end with a port other than 0.
fn kill_forward(local: &[u8]) -> Request
    ensures { result ≡ killed_at (local_in local.now) }
{
    match read_local(local) {
        None | Some(0) => Request::BadForward,
        Some(port) => Request::KillForward(port),
    }
}

/// Parses the port of a local end: `tcp:` and 1 to 5 digits of at most 65,535.
fn read_local(text: &[u8]) -> Option<u16>
    ensures { result ≡ local_in text.now }
{
    let port = read_number(behind(b"tcp:", text)?, 5)?;
    if port <= 65535 {
        Some(port as u16)
    } else {
        None
    }
}

/// Returns whether a text can be the remote end of a forward.
fn is_remote(text: &[u8]) -> bool
    ensures { result ≡ is_remote text.now }
{
    !text.is_empty() && text.len() <= MAX_REMOTE && is_graphic(text)
}
