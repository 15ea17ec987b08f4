//! Replies about forwards.

ghost use Rattle.std.specs.Prelude.{◌≡◌, ◌<◌, ◌^◌, ◌++◌, length, IfOk, codes, decimal};
ghost use Rattle.adb_reply.specs.Strings.{told};
ghost use Rattle.adb_forward.specs.Forwards.{forward_list};
ghost use Rattle.adb_reply.specs.Answer.{forwards_from, forwards_to, unbinds};

use crate::answer::{Answer, Next};
use crate::strings::{failed, told};
use adb_forward::Forwards;
use adb_outside::Text;
use itoa::Buffer;
use std::alloc::{AllocError, Global};

/// Returns the answer to a request for a forward to an end at the device of a transport id.
pub(crate) fn forward(
    alloc: Global,
    forwards: &Forwards,
    norebind: bool,
    transport: u32,
    local: u16,
    remote: &[u8],
) -> Result<Answer, AllocError>
    ensures { IfOk result (λ answer.
        answer ≡ forwards_to forwards.now norebind transport local remote.now) }
{
    let is_there = forwards.find(local).is_some();
    if is_there && norebind {
        return failed(alloc, b"cannot rebind existing socket");
    }
    if !is_there && forwards.is_full() {
        return failed(alloc, b"too many forwards");
    }
    forward_from(alloc, is_there, transport, local, remote)
}

/// Returns the answer for a forward that no rule refuses: an existing row is changed at once,
/// otherwise a listener is bound.
fn forward_from(
    alloc: Global,
    is_there: bool,
    transport: u32,
    local: u16,
    remote: &[u8],
) -> Result<Answer, AllocError>
    ensures { IfOk result (λ answer.
        answer ≡ forwards_from is_there transport local remote.now) }
{
    let remote = Text::from_slice(alloc, remote)?;
    if is_there {
        return Ok(Answer {
            bytes: Text::from_slice(alloc, b"OKAYOKAY")?,
            next: Next::Rebind {
                transport,
                local,
                remote,
            },
        });
    }
    Ok(Answer {
        bytes: Text::new(alloc),
        next: Next::Bind {
            transport,
            local,
            remote,
            chosen: local == 0,
        },
    })
}

/// Returns the answer that ends the forward of a local port.
pub(crate) fn unbind(alloc: Global, forwards: &Forwards, port: u16) -> Result<Answer, AllocError>
    ensures { IfOk result (λ answer. answer ≡ unbinds forwards.now port) }
{
    if forwards.find(port).is_none() {
        let text = not_found(alloc, port)?;
        return failed(alloc, text.as_slice());
    }
    Ok(Answer {
        bytes: Text::from_slice(alloc, b"OKAYOKAY")?,
        next: Next::Unbind(port),
    })
}

/// Returns the text that no forward has that local port.
fn not_found(alloc: Global, port: u16) -> Result<Text, AllocError>
    ensures text { IfOk result (λ text.
        text ≡ codes "listener 'tcp:" ++ decimal port ++ codes "' not found") }
    ensures short { IfOk result (λ text. length text < 2 ^ 16) }
{
    let mut text = Text::from_slice(alloc, b"listener 'tcp:")?;
    text.push_slice(Buffer::new().format(port).as_bytes())?;
    text.push_slice(b"' not found")?;
    Ok(text)
}

/// Returns the answer with the list of the forwards.
pub(crate) fn list(alloc: Global, forwards: &Forwards) -> Result<Answer, AllocError>
    ensures { IfOk result (λ answer. answer ≡ told (forward_list forwards.now) Next.Close) }
{
    let list = forwards.list()?;
    told(alloc, list.as_slice(), Next::Close)
}
