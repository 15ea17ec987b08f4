//! Bytes of a client that asks: its whole requests are answered (OVERVIEW.TXT, "Protocol details").

ghost use Rattle.std.specs.Prelude.{◌≡◌, Some, None, IfOk, IfSome, OnOk, OnErr};
ghost use Rattle.adb_outside.specs.Tables.{at};
ghost use Rattle.adb_history.specs.Asking.{asks_with};
ghost use Rattle.adb_history.specs.Rows.{Client as Row};
ghost use Rattle.adb_history.specs.Reading.{asked_before, asks, goes_on};
ghost use Rattle.adb_laws_resting.specs.Wanted.{IsSoundNext};
ghost use Rattle.adb_hub_tables.specs.Endings.{Records};
ghost use Rattle.adb_hub_tables.specs.Fit.{IsFit};
ghost use Rattle.adb_hub_tables.specs.Tables.{state_of};
ghost use Rattle.adb_hub_rules.specs.Up.{IsSized};
ghost use Rattle.adb_hub_clients.specs.Asking.{hears, is_stop, FitsNext};
ghost use Rattle.adb_hub_clients.specs.Leaving.{Leaves, HoldsAtLeast};
ghost use Rattle.adb_hub_clients.specs.Planning.{Answers, PlansAt, PlansWhole, answered, answers};

use crate::following::{end, follow};
use crate::hearing::{Heard, reserve_replies};
use crate::plan::{Plan, make_plan, plan_piece};
use crate::stopping::record_all;
use crate::taking::{take_back, take_in};
use adb_hub_tables::{Endings, Tables};
use adb_reply::Next;
use std::alloc::AllocError;

/// Submits a piece of a client that asks: its whole requests are answered. A piece that is one
/// whole request, the usual case, is not held first.
pub(crate) fn ask(
    tables: &mut Tables,
    ends: &mut Endings,
    client: u32,
    piece: &[u8],
) -> Result<(), AllocError>
    requires fit { IsFit tables.old }
    requires sized { IsSized tables.old }
    requires ports { at 0 tables.old.forwards ≡ None }
    ensures made { OnOk result (Answers client piece.now tables.old tables.new) }
    ensures told { OnOk result ((row : Row) → (state_of tables.old).clients client ≡ Some row
        → Records (asks (asks_with tables.old.devices tables.old.forwards piece.now
        (asked_before row)) client (state_of tables.old)).told ends.old tables.old ends.new) }
    ensures kept { OnErr result (Leaves (state_of tables.old) tables.new) }
    ensures quiet { OnErr result (ends.new ≡ ends.old) }
{
    match whole_plan(tables, client, piece)? {
        Some(plan) => {
            let heard = Heard {
                replies: plan.replies,
                used: 0,
                selected: plan.selected,
            };
            make(tables, ends, client, &heard, plan.next)
        }
        None => hold_and_answer(tables, ends, client, piece),
    }
}

/// Returns the plan for a piece that is one whole request, if the client holds nothing. Nothing
/// changes.
fn whole_plan(tables: &Tables, client: u32, piece: &[u8]) -> Result<Option<Plan>, AllocError>
    ensures { IfOk result (λ plan. IfSome plan (λ plan.
        PlansWhole tables.now (at client tables.now.clients.entries) piece.now plan)) }
{
    match tables.clients.get(&client) {
        Some(row) if row.held() == 0 => {
            plan_piece(tables.alloc, row, piece, &tables.devices, &tables.forwards)
        }
        _ => Ok(None),
    }
}

/// Holds a piece after the client's earlier bytes, and answers the whole requests.
fn hold_and_answer(
    tables: &mut Tables,
    ends: &mut Endings,
    client: u32,
    piece: &[u8],
) -> Result<(), AllocError>
    requires fit { IsFit tables.old }
    requires sized { IsSized tables.old }
    requires ports { at 0 tables.old.forwards ≡ None }
    ensures made { OnOk result (Answers client piece.now tables.old tables.new) }
    ensures told { OnOk result ((row : Row) → (state_of tables.old).clients client ≡ Some row
        → Records (asks (asks_with tables.old.devices tables.old.forwards piece.now
        (asked_before row)) client (state_of tables.old)).told ends.old tables.old ends.new) }
    ensures kept { OnErr result (Leaves (state_of tables.old) tables.new) }
    ensures quiet { OnErr result (ends.new ≡ ends.old) }
{
    take_in(tables, client, piece)?;
    match answer(tables, ends, client) {
        Ok(()) => Ok(()),
        Err(error) => {
            take_back(tables, client, piece.len());
            Err(error)
        }
    }
}

/// Answers the whole requests that a client holds.
fn answer(tables: &mut Tables, ends: &mut Endings, client: u32) -> Result<(), AllocError>
    requires fit { IsFit tables.old }
    requires sized { IsSized tables.old }
    requires ports { at 0 tables.old.forwards ≡ None }
    ensures made { OnOk result ((row : Row) → (state_of tables.old).clients client ≡ Some row
        → Leaves (answered client row (state_of tables.old)) tables.new) }
    ensures told { OnOk result ((row : Row) → (state_of tables.old).clients client ≡ Some row
        → Records (answers client row (state_of tables.old)).told ends.old tables.old ends.new) }
    ensures kept { OnErr result (Leaves (state_of tables.old) tables.new) }
    ensures quiet { OnErr result (ends.new ≡ ends.old) }
{
    match plan_of(tables, client)? {
        Some(plan) => {
            let heard = Heard {
                replies: plan.replies,
                used: plan.used,
                selected: plan.selected,
            };
            make(tables, ends, client, &heard, plan.next)
        }
        None => Ok(()),
    }
}

/// Returns the plan for the requests that a client holds, if it has a row. Nothing changes.
fn plan_of(tables: &Tables, client: u32) -> Result<Option<Plan>, AllocError>
    ensures { IfOk result (λ plan.
        PlansAt tables.now (at client tables.now.clients.entries) plan) }
{
    match tables.clients.get(&client) {
        Some(row) => {
            let plan = make_plan(tables.alloc, row, &tables.devices, &tables.forwards)?;
            Ok(Some(plan))
        }
        None => Ok(None),
    }
}

/// Queues the replies to requests, in places that are reserved first, and performs the action that
/// follows.
fn make(
    tables: &mut Tables,
    ends: &mut Endings,
    client: u32,
    heard: &Heard,
    next: Option<Next>,
) -> Result<(), AllocError>
    requires fit { IsFit tables.old }
    requires held { HoldsAtLeast heard.now.used (at client tables.old.clients.entries) }
    requires fits { FitsNext next }
    requires follows { IsSoundNext tables.old.forwards next }
    ensures made { OnOk result (Leaves (goes_on next client
        (hears heard.now client (state_of tables.old))).state tables.new) }
    ensures told { OnOk result (Records (goes_on next client
        (hears heard.now client (state_of tables.old))).told ends.old tables.old ends.new) }
    ensures kept { OnErr result (Leaves (state_of tables.old) tables.new) }
    ensures quiet { OnErr result (ends.new ≡ ends.old) }
{
    reserve_replies(tables, client, heard)?;
    if is_stop(&next) {
        record_all(&tables.streams, ends);
        end(tables, client, heard);
        return Ok(());
    }
    follow(tables, client, heard, next)
}

/// Returns whether the server stops.
fn is_stop(next: &Option<Next>) -> bool
    ensures { result ≡ is_stop next.now }
{
    matches!(next, Some(Next::Stop))
}
