//! The answer to each request.

ghost use Rattle.std.specs.Prelude.{◌≡◌, IfOk, codes};
ghost use Rattle.adb_reply.specs.Answer.{answer};

use crate::about_devices::{self, Fact};
use crate::about_forwards;
use crate::answer::{Answer, Next};
use crate::chosen::{Chosen, choose};
use crate::strings::{failed, okay};
use adb_forward::Forwards;
use adb_outside::Text;
use adb_registry::Registry;
use adb_request::{Request, Which};
use std::alloc::{AllocError, Global};

/// Returns the answer to a request, given the devices, the forwards and the device that the
/// connection selected (SERVICES.TXT, "HOST SERVICES"). It changes none of them. Fails only if an
/// allocation fails.
pub fn reply(
    alloc: Global,
    registry: &Registry,
    forwards: &Forwards,
    selected: Option<u32>,
    request: &Request,
) -> Result<Answer, AllocError>
    ensures { IfOk result (λ given.
        given ≡ answer registry.now.rows forwards.now selected request.now) }
{
    match request {
        Request::Version => version(alloc),
        Request::Kill => okay(alloc, Next::Stop),
        Request::Devices { long } => about_devices::list(alloc, registry, *long, Next::Close),
        Request::Track { long } => {
            about_devices::list(alloc, registry, *long, Next::Track { long: *long })
        }
        Request::Transport { by, tell_id } => {
            about_devices::select(alloc, registry, by, *tell_id)
        }
        Request::Serialno(on) => {
            about_devices::tell(alloc, registry, selected, Fact::Serialno, on)
        }
        Request::Devpath(on) => about_devices::tell(alloc, registry, selected, Fact::Devpath, on),
        Request::GetState(on) => {
            about_devices::tell(alloc, registry, selected, Fact::GetState, on)
        }
        Request::Features(on) => {
            about_devices::tell(alloc, registry, selected, Fact::Features, on)
        }
        Request::Forward {
            on,
            norebind,
            local,
            remote,
        } => match choose(alloc, registry, selected, on, true)? {
            Chosen::Refused(answer) => Ok(answer),
            Chosen::Device(id) => {
                about_forwards::forward(alloc, forwards, *norebind, id, *local, remote.as_slice())
            }
        },
        Request::BadForward => failed(alloc, b"bad forward specification"),
        Request::KillForward(port) => about_forwards::unbind(alloc, forwards, *port),
        Request::KillAll => unbind_all(alloc),
        Request::ListForward => about_forwards::list(alloc, forwards),
        Request::Service(text) => about_devices::open(alloc, registry, selected, text),
        Request::UnknownHost => failed(alloc, b"unknown host service"),
    }
}

/// Returns the answer with the version of this server.
fn version(alloc: Global) -> Result<Answer, AllocError>
    ensures { IfOk result (λ given. given
        ≡ record { bytes = codes "OKAY00040029"; next = Next.Close }) }
{
    Ok(Answer {
        bytes: Text::from_slice(alloc, b"OKAY00040029")?,
        next: Next::Close,
    })
}

/// Returns the answer that ends all forwards.
fn unbind_all(alloc: Global) -> Result<Answer, AllocError>
    ensures { IfOk result (λ given. given
        ≡ record { bytes = codes "OKAYOKAY"; next = Next.UnbindAll }) }
{
    Ok(Answer {
        bytes: Text::from_slice(alloc, b"OKAYOKAY")?,
        next: Next::UnbindAll,
    })
}
