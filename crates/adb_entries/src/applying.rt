//! Applying an entry.

ghost use Rattle.std.specs.Prelude.{◌≡◌, ◌+◌, nat_eq, false, OnErr, OnOk};
ghost use Rattle.adb_outside.specs.declared.kinds.Kind.{Kind};
ghost use Rattle.adb_capture.specs.Lent.{entry_lent};
ghost use Rattle.adb_capture.specs.declared.entry.Entry.{Entry};
ghost use Rattle.adb_history.specs.Machine.{History};
ghost use Rattle.adb_history.specs.Kept.{IsLawful};
ghost use Rattle.adb_entries.specs.Machine.{Applies, ReportsApplied};
ghost use Rattle.adb_entries.specs.Refused.{applied_as};

use crate::refused::Refused;
use adb_capture::Lent;
use adb_history::Reason;
use adb_hub::{Endings, Hub, HubError, Life, others_end_no_stream};
use adb_outside::Kind;

/// Applies the next entry of the history that a hub holds; its bytes are borrowed. A hand-out that
/// was recorded is skipped. After a refusal, and after an allocation failure, the hub is unchanged.
pub fn apply(hub: &mut Hub, entry: Lent<'_>) -> Result<(), Refused>
    requires { hub.old.stopped ≡ false }
    ensures applied { (h : History) → IsLawful hub.old h
        → Applies h (entry_lent entry.entry) result hub.new }
    ensures err { OnErr result (hub.new ≡ hub.old) }
{
    match entry {
        Lent::Join { client } => join(hub, client),
        Lent::Enter { client, port } => enter(hub, client, port),
        Lent::Read { client, bytes } => lived(hub.read(client, bytes)),
        Lent::End { client, cause } => lived(hub.end(client, cause)),
        Lent::Bound { client, port } => lived(hub.bound(client, port)),
        Lent::Attach { link, kind, serial } => attach(hub, link, kind, serial),
        Lent::Recv { link, bytes } => lived(hub.recv(link, bytes)),
        Lent::Detach { link, cause } => lived(hub.detach(link, cause)),
        Lent::Put { .. } | Lent::Send { .. } => Ok(()),
    }
}

/// Applies the next entry as `apply` does, and appends the streams that end at it to the log, in
/// order. After an error the log is unchanged.
pub fn apply_reporting(hub: &mut Hub, entry: Lent<'_>, ends: &mut Endings) -> Result<(), Refused>
    requires { hub.old.stopped ≡ false }
    ensures applied { (h : History) → IsLawful hub.old h
        → Applies h (entry_lent entry.entry) result hub.new }
    ensures reports { (h : History) → IsLawful hub.old h
        → OnOk result (ReportsApplied (entry_lent entry.entry) h ends.old ends.new) }
    ensures err { OnErr result (hub.new ≡ hub.old) }
    ensures quiet { OnErr result (ends.new.list ≡ ends.old.list) }
{
    others_end_no_stream();
    match entry {
        Lent::Join { client } => join(hub, client),
        Lent::Enter { client, port } => enter(hub, client, port),
        Lent::Read { client, bytes } => lived(hub.read_reporting(client, bytes, ends)),
        Lent::End { client, cause } => lived(hub.end_reporting(client, cause, ends)),
        Lent::Bound { client, port } => lived(hub.bound(client, port)),
        Lent::Attach { link, kind, serial } => attach(hub, link, kind, serial),
        Lent::Recv { link, bytes } => lived(hub.recv_reporting(link, bytes, ends)),
        Lent::Detach { link, cause } => lived(hub.detach_reporting(link, cause, ends)),
        Lent::Put { .. } | Lent::Send { .. } => Ok(()),
    }
}

/// Adds a client, under the number that its record names.
fn join(hub: &mut Hub, client: u32) -> Result<(), Refused>
    requires { hub.old.stopped ≡ false }
    ensures applied { (h : History) → IsLawful hub.old h
        → Applies h (Entry.Join client) result hub.new }
    ensures err { OnErr result (hub.new ≡ hub.old) }
{
    if !is_next(hub.joined(), client) {
        return Err(Refused::Because(Reason::NotDrawn));
    }
    came(hub.join())
}

/// Adds a client that comes through the forward of a port, under the number that its record names.
fn enter(hub: &mut Hub, client: u32, port: u16) -> Result<(), Refused>
    requires { hub.old.stopped ≡ false }
    ensures applied { (h : History) → IsLawful hub.old h
        → Applies h (Entry.Enter client port) result hub.new }
    ensures err { OnErr result (hub.new ≡ hub.old) }
{
    if !is_next(hub.joined(), client) {
        return Err(Refused::Because(Reason::NotDrawn));
    }
    came(hub.enter(port))
}

/// Attaches a device, under the number that its record names.
fn attach(hub: &mut Hub, link: u32, kind: Kind, serial: &[u8]) -> Result<(), Refused>
    requires { hub.old.stopped ≡ false }
    ensures applied { (h : History) → IsLawful hub.old h
        → Applies h (Entry.Attach link kind serial.now) result hub.new }
    ensures err { OnErr result (hub.new ≡ hub.old) }
{
    if !is_next(hub.plugged(), link) {
        return Err(Refused::Because(Reason::NotDrawn));
    }
    came(hub.attach(kind, serial))
}

/// Returns whether a number is the next after those that were drawn.
fn is_next(drawn: u32, number: u32) -> bool
    ensures { result ≡ nat_eq number (drawn + 1) }
{
    drawn.checked_add(1) == Some(number)
}

/// Converts the answer of a call about an existing client or link.
fn lived(answer: Result<Life, HubError>) -> Result<(), Refused>
    ensures { result ≡ applied_as answer }
{
    answer?;
    Ok(())
}

/// Converts the answer of a call that draws a number.
fn came(answer: Result<u32, HubError>) -> Result<(), Refused>
    ensures { result ≡ applied_as answer }
{
    answer?;
    Ok(())
}
