//! Choosing the device that a request asks.

ghost use Rattle.std.specs.Prelude.{◌≡◌, IfOk};
ghost use Rattle.adb_reply.specs.Refusals.{no_transport};
ghost use Rattle.adb_reply.specs.Strings.{failed};
ghost use Rattle.adb_reply.specs.Chosen.{asked_device, device_by};

use crate::answer::Answer;
use crate::refusals::refusal_text;
use crate::strings::failed;
use adb_outside::Selector;
use adb_registry::Registry;
use adb_request::Which;
use std::alloc::{AllocError, Global};

/// The device that a request asks, by its transport id, or the reply that refuses the request.
#[derive(Drop)]
pub(crate) enum Chosen {
    Device(u32),
    Refused(Answer),
}

/// Returns the device that a request asks: the one that it names, otherwise the one that the
/// connection selected, which may be gone, otherwise any. If `ready` is set, the device must have
/// sent its identity.
pub(crate) fn choose(
    alloc: Global,
    registry: &Registry,
    selected: Option<u32>,
    on: &Which,
    ready: bool,
) -> Result<Chosen, AllocError>
    ensures { IfOk result (λ device. device
        ≡ asked_device registry.now.rows selected on.now ready) }
{
    match (on, selected) {
        (Which::By(by), _) => choose_by(alloc, registry, by, ready),
        (Which::Own, None) => choose_by(alloc, registry, &Selector::Any, ready),
        (Which::Own, Some(id)) => choose_own(alloc, registry, id, ready),
    }
}

/// Returns the device that the connection selected, which may be gone.
fn choose_own(
    alloc: Global,
    registry: &Registry,
    id: u32,
    ready: bool,
) -> Result<Chosen, AllocError>
    ensures { IfOk result (λ device. device
        ≡ asked_device registry.now.rows (Some id) Which.Own ready) }
{
    if registry.row(id).is_none() {
        return Ok(Chosen::Refused(no_transport(alloc)?));
    }
    choose_by(alloc, registry, &Selector::Id(id), ready)
}

/// Returns the one device that a selector means.
pub(crate) fn choose_by(
    alloc: Global,
    registry: &Registry,
    by: &Selector,
    ready: bool,
) -> Result<Chosen, AllocError>
    ensures { IfOk result (λ device. device ≡ device_by registry.now.rows by.now ready) }
{
    match registry.choose(by, ready) {
        Ok(id) => Ok(Chosen::Device(id)),
        Err(why) => {
            let text = refusal_text(alloc, by, why)?;
            Ok(Chosen::Refused(failed(alloc, text.as_slice())?))
        }
    }
}

/// Returns the refusal if the selected device is gone, or none is selected.
pub(crate) fn no_transport(alloc: Global) -> Result<Answer, AllocError>
    ensures { IfOk result (λ answer. answer ≡ failed no_transport) }
{
    failed(alloc, b"device offline (no transport)")
}
