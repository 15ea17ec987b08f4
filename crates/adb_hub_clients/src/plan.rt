//! The plan for the requests of a client.

ghost use Rattle.std.specs.Prelude.{◌≡◌, ◌≤◌, length, IfOk, IfSome};
ghost use Rattle.adb_history.specs.Asking.{reads_on};
ghost use Rattle.adb_hub_clients.specs.Plan.{asking, asked_by, IsWholePlan};
ghost use Rattle.adb_hub_clients.specs.Requests.{IsAskedBehind};

use crate::requests::{Reading, Step};
use adb_client::{Ask, Asked, Client, ask_in};
use adb_forward::Forwards;
use adb_outside::Text;
use adb_registry::Registry;
use adb_reply::Next;
use adb_request::Request;
use std::alloc::{AllocError, Global};

/// The plan for the requests of a client: the replies to its whole requests, in order; how many
/// bytes these requests have; the transport that they selected; and the action after the last of
/// them, if no further one is read (OVERVIEW.TXT, "Protocol details").
#[derive(Drop)]
pub struct Plan {
    pub replies: Text,
    pub used: usize,
    pub selected: Option<u32>,
    pub next: Option<Next>,
}

/// Returns the plan for the held bytes of a client, with these devices and forwards. It changes
/// nothing. Fails only if an allocation fails.
pub fn make_plan(
    alloc: Global,
    client: &Client,
    devices: &Registry,
    forwards: &Forwards,
) -> Result<Plan, AllocError>
    ensures asked { IfOk result (λ plan. asked_by plan client.now.held
        ≡ reads_on devices.now forwards.now (length client.now.held)
        (asking client.now.held client.now.about.selected)) }
    ensures within { IfOk result (λ plan. plan.used ≤ length client.now.held) }
{
    let mut reading = Reading::new(alloc, client.about().selected);
    let held = client.held();
    while reading.used < held {
        match reading.read_one(alloc, client, devices, forwards)? {
            Step::Again => {}
            Step::End(next) => return Ok(planned(reading, next)),
        }
    }
    Ok(planned(reading, None))
}

/// Returns the plan for a piece of a client that holds nothing, if the piece is one whole request.
pub(crate) fn plan_piece(
    alloc: Global,
    client: &Client,
    piece: &[u8],
    devices: &Registry,
    forwards: &Forwards,
) -> Result<Option<Plan>, AllocError>
    ensures { IfOk result (λ plan. IfSome plan (λ plan.
        IsWholePlan devices.now forwards.now client.now.about.selected piece.now plan)) }
{
    let Some(request) = whole_request(alloc, piece)? else {
        return Ok(None);
    };
    let mut reading = Reading::new(alloc, client.about().selected);
    match reading.answer(alloc, request, piece.len(), devices, forwards)? {
        Step::Again => Ok(Some(planned(reading, None))),
        Step::End(next) => Ok(Some(planned(reading, next))),
    }
}

/// Parses a piece that is one whole request.
fn whole_request(alloc: Global, piece: &[u8]) -> Result<Option<Request>, AllocError>
    ensures { IfOk result (λ request. IfSome request (λ request.
        IsAskedBehind 0 (record { ask = Ask.Whole request; len = length piece.now }) piece.now)) }
{
    let Asked { ask, len } = ask_in(alloc, piece)?;
    match ask {
        Ask::Whole(request) if len == piece.len() => Ok(Some(request)),
        _ => Ok(None),
    }
}

/// Returns the plan for the requests that were read, with the action that follows.
fn planned(reading: Reading, next: Option<Next>) -> Plan
    ensures { result ≡ record {
      replies = reading.replies;
      used = reading.used;
      selected = reading.selected;
      next = next;
    } }
{
    Plan {
        replies: reading.replies,
        used: reading.used,
        selected: reading.selected,
        next,
    }
}
