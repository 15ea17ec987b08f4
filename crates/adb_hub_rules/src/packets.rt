//! The packets of a device (protocol.txt).

ghost use Rattle.std.specs.Prelude.{◌≡◌, ◌≤◌, ℕ, List, Some, is_some, IsSome, IfSome, length};
ghost use Rattle.adb_outside.specs.Tables.{at};
ghost use Rattle.adb_banner.specs.Banner.{identity_of};
ghost use Rattle.adb_registry.specs.declared.registry.TheConstants.{MAX_FEATURES};
ghost use Rattle.adb_wire.specs.Format.{has_sums};
ghost use Rattle.adb_registry.specs.Row.{unauthorized_row};
ghost use Rattle.adb_registry.specs.Registry.{IsSound, changed};
ghost use Rattle.adb_history.specs.Rows.{to_link};
ghost use Rattle.adb_history.specs.Links.{is_connected};
ghost use Rattle.adb_history.specs.Packets.{least_version, with_sums, goes_online, streams_end_first, connects, cnxn, refuses_open, unauthorized, takes_close};
ghost use Rattle.adb_hub_tables.specs.Endings.{Reports};
ghost use Rattle.adb_hub_tables.specs.Tables.{state_of};
ghost use Rattle.adb_hub_rules.specs.Came.{named, offline_in};
ghost use Rattle.adb_hub_tables.specs.Places.{LinkRoom, IsProvided, Uses};

use crate::ends::{end_all, end_row};
use crate::losing::end_link;
use adb_history::Ending;
use adb_hub_tables::{Endings, Tables};
use adb_outside::{Identity, State};
use adb_stream::Stream;
use adb_wire::{Command, Head, MAX_PAYLOAD, MIN_MAXDATA, MIN_VERSION, VERSION};

/// Handles a CNXN. A device breaks its link if its version is too old, if it accepts too few bytes
/// or if it sends no identity.
pub(crate) fn take_cnxn(
    tables: &mut Tables,
    ends: &mut Endings,
    link: u32,
    head: &Head,
    identity: Option<Identity>,
)
    requires cnxn { head.now.command ≡ Command.Cnxn }
    requires features { IfSome identity (λ named. length named.features ≤ MAX_FEATURES) }
    requires provided { IsProvided tables.old }
    ensures state { (banner : List ℕ) → identity_of banner ≡ identity → state_of tables.new
        ≡ (cnxn link head.now.arg0 head.now.arg1 banner (state_of tables.old)).state }
    ensures reports { (banner : List ℕ) → identity_of banner ≡ identity
        → Reports (cnxn link head.now.arg0 head.now.arg1 banner (state_of tables.old)).told
        ends.old tables.old ends.new tables.new }
    ensures uses { (t c : ℕ) → Uses t 0 c 0 tables.old tables.new }
{
    if head.arg0 < MIN_VERSION || head.arg1 < MIN_MAXDATA {
        end_link(tables, ends, link, Ending::Broken);
    } else {
        take_identity(tables, ends, link, head, identity);
    }
}

fn take_identity(
    tables: &mut Tables,
    ends: &mut Endings,
    link: u32,
    head: &Head,
    identity: Option<Identity>,
)
    requires version { least_version ≤ head.now.arg0 }
    requires cnxn { head.now.command ≡ Command.Cnxn }
    requires features { IfSome identity (λ named. length named.features ≤ MAX_FEATURES) }
    requires provided { IsProvided tables.old }
    ensures state { state_of tables.new ≡ (connects link head.now.arg0 head.now.arg1
        identity (state_of tables.old)).state }
    ensures reports { Reports (connects link head.now.arg0 head.now.arg1
        identity (state_of tables.old)).told ends.old tables.old ends.new tables.new }
    ensures uses { (t c : ℕ) → Uses t 0 c 0 tables.old tables.new }
{
    match identity {
        Some(identity) => connect(tables, ends, link, head, identity),
        None => end_link(tables, ends, link, Ending::Broken),
    }
}

/// Connects a device under its identity. On a link that already had a CNXN, its streams end first.
fn connect(tables: &mut Tables, ends: &mut Endings, link: u32, head: &Head, identity: Identity)
    requires version { least_version ≤ head.now.arg0 }
    requires cnxn { head.now.command ≡ Command.Cnxn }
    requires features { length identity.features ≤ MAX_FEATURES }
    requires provided { IsProvided tables.old }
    ensures state { state_of tables.new ≡ (connects link head.now.arg0 head.now.arg1
        (Some identity) (state_of tables.old)).state }
    ensures reports { Reports (connects link head.now.arg0 head.now.arg1
        (Some identity) (state_of tables.old)).told ends.old tables.old ends.new tables.new }
    ensures uses { (t c : ℕ) → Uses t 0 c 0 tables.old tables.new }
{
    end_first_streams(tables, ends, link);
    go_online(tables, link, head, identity);
}

/// Ends the streams of a link that already had a CNXN.
fn end_first_streams(tables: &mut Tables, ends: &mut Endings, link: u32)
    requires { IsProvided tables.old }
    ensures state { let s = state_of tables.old in state_of tables.new
        ≡ (streams_end_first (is_connected link s.devices) link s).state }
    ensures reports { let s = state_of tables.old in
        Reports (streams_end_first (is_connected link s.devices) link s).told
        ends.old tables.old ends.new tables.new }
    ensures uses { (t c : ℕ) → Uses t 0 c 0 tables.old tables.new }
{
    if tables.is_connected(link) {
        end_all(tables, ends, link, Ending::Lost);
    }
}

/// Sets the version and maxdata of a link.
fn go_online(tables: &mut Tables, link: u32, head: &Head, identity: Identity)
    requires version { least_version ≤ head.now.arg0 }
    requires cnxn { head.now.command ≡ Command.Cnxn }
    requires features { length identity.features ≤ MAX_FEATURES }
    requires provided { IsProvided tables.old }
    ensures state { state_of tables.new
        ≡ goes_online link head.now.arg0 head.now.arg1 identity (state_of tables.old) }
    ensures uses { (t c : ℕ) → Uses t 0 c 0 tables.old tables.new }
{
    set_version(tables, link, head);
    name_device(tables, link, head, identity);
    tables.mark_all();
}

/// Sets the version of a link to that of a CNXN.
fn set_version(tables: &mut Tables, link: u32, head: &Head)
    requires version { least_version ≤ head.now.arg0 }
    requires cnxn { head.now.command ≡ Command.Cnxn }
    ensures state { state_of tables.new
        ≡ to_link link (with_sums (has_sums head.now.arg0)) (state_of tables.old) }
    ensures uses { (t c : ℕ) → Uses t 0 c 0 tables.old tables.new }
{
    if let Some(port) = tables.links.get_mut(&link) {
        port.link.took(head);
    }
}

/// Sets the identity of a device, with the smaller version and maxdata.
fn name_device(tables: &mut Tables, link: u32, head: &Head, identity: Identity)
    requires features { length identity.features ≤ MAX_FEATURES }
    ensures state { state_of tables.new
        ≡ named link head.now.arg0 head.now.arg1 identity (state_of tables.old) }
    ensures uses { (t c : ℕ) → Uses t 0 c 0 tables.old tables.new }
{
    let version = head.arg0.min(VERSION);
    let maxdata = head.arg1.min(MAX_PAYLOAD);
    if has_device(tables, link) {
        tables.devices.online(link, identity, version, maxdata);
    }
}

fn has_device(tables: &Tables, link: u32) -> bool
    ensures has { result ≡ is_some (at link tables.now.devices.rows) }
    ensures sound { IsSound tables.now.devices }
{
    tables.devices.row(link).is_some()
}

/// Handles a request to log in: before its first CNXN, the device is unauthorized from now on.
pub(crate) fn take_login(tables: &mut Tables, link: u32)
    requires { IsProvided tables.old }
    ensures state { let s = state_of tables.old in
        state_of tables.new ≡ (unauthorized link (at link s.devices.rows) s).state }
    ensures uses { (t c : ℕ) → Uses t 0 c 0 tables.old tables.new }
{
    if is_offline(tables, link) {
        set_unauthorized(tables, link);
        tables.mark_all();
    }
}

fn set_unauthorized(tables: &mut Tables, link: u32)
    requires { IsSome (at link tables.old.devices.rows) }
    ensures state { let s = state_of tables.old in state_of tables.new
        ≡ record s { devices = changed link unauthorized_row s.devices } }
    ensures uses { (t c : ℕ) → Uses t 0 c 0 tables.old tables.new }
{
    tables.devices.unauthorized(link);
}

/// Returns whether a device was plugged in and has not sent its identity.
fn is_offline(tables: &Tables, link: u32) -> bool
    ensures { result ≡ offline_in (at link tables.now.devices.rows) }
{
    match tables.devices.row(link) {
        Some(row) => matches!(row.state, State::Offline),
        None => false,
    }
}

/// Refuses a stream that a device opens.
pub(crate) fn refuse_open(tables: &mut Tables, link: u32, id: u32)
    requires { LinkRoom 1 (at link tables.old.links.entries) }
    ensures state { state_of tables.new ≡ (refuses_open link id (state_of tables.old)).state }
    ensures uses { (c : ℕ) → Uses link 1 c 0 tables.old tables.new }
{
    if id != 0 {
        tables.owe_close(link, 0, id);
    }
}

pub(crate) fn take_close(
    tables: &mut Tables,
    ends: &mut Endings,
    id: u32,
    remote: u32,
    stream: &Stream,
)
    requires here { at id tables.old.streams.streams ≡ Some stream.now }
    requires provided { IsProvided tables.old }
    ensures state { (state_of tables.new)
        ≡ (takes_close id remote stream.now (state_of tables.old)).state }
    ensures reports { Reports (takes_close id remote stream.now (state_of tables.old)).told
        ends.old tables.old ends.new tables.new }
    ensures uses { (t c : ℕ) → Uses t 0 c 0 tables.old tables.new }
{
    if remote == 0 || remote == stream.part.remote {
        end_row(tables, ends, id, stream, Ending::PeerClosed);
    }
}
