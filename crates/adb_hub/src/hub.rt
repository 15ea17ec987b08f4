//! The hub.

ghost use Rattle.std.specs.Prelude.{◌≡◌, ◌≤◌, [], length};
ghost use Rattle.adb_history.specs.Accepted.{is_drawn};
ghost use Rattle.adb_history.specs.Kept.{IsLawful};

use crate::answers::Summary;
use adb_forward::Forwards;
use adb_hub_tables::{Tables, TouchedMap};
use adb_registry::Registry;
use adb_stream::Streams;
use std::alloc::Global;
use std::collections::BTreeSet;
use std::marker::Model;

/// The number of held bytes of a client at which it has no more room.
pub const MAX_HELD: usize = adb_client::MAX_HELD;

/// The number of bytes due to a client that asks above which the client has no more room.
pub const MAX_DUE_TO_CLIENT: usize = 1_048_576;

/// The number of bytes due on a link above which its device has no more room, apart from
/// `DUE_FOR_STREAM` for each open stream of the hub.
pub const MAX_DUE_ON_LINK: usize = 4_194_304;

/// The number of bytes that may be due on a link for each open stream: twice the first credit of a
/// stream, which is more than a write and its acknowledgements. So a stream alone takes no device's
/// room unless the device gave it more credit.
pub const DUE_FOR_STREAM: usize = 524_288;

/// States the numbers that definitions take from the code.
pub fn limits_are()
    ensures held { MAX_HELD ≡ 65540 }
    ensures due_to_client { MAX_DUE_TO_CLIENT ≡ 1048576 }
    ensures due_on_link { MAX_DUE_ON_LINK ≡ 4194304 }
    ensures due_for_stream { DUE_FOR_STREAM ≡ 524288 }
{}

/// The hub: the live clients, links and streams, the devices and the forwards. Contracts see the
/// state that a history leaves of them. After a refusal, and after an allocation failure, the hub
/// is unchanged.
#[derive(Drop)]
pub struct Hub {
    pub(crate) tables: Tables,
}

impl Model for Hub {
    ghost use Rattle.adb_history.specs.Kept.{Kept, kept};

    ghost Value = { Kept };

    ghost use Rattle.adb_hub_tables.specs.Tables.{state_of};
    ghost use Rattle.adb_hub.specs.Sound.{IsSound};

    ghost view = { λ hub. kept (state_of hub.tables) };

    ghost invariant = { λ hub. IsSound hub.tables };
}

impl Hub {
    /// Returns a hub to which no client or device came yet. Allocates nothing.
    pub fn new(alloc: Global) -> Hub
        ensures { IsLawful result [] }
    {
        Hub {
            tables: Tables {
                alloc,
                joined: 0,
                clients: TouchedMap::new(alloc),
                trackers: BTreeSet::new(alloc),
                links: TouchedMap::new(alloc),
                streams: Streams::new(alloc),
                devices: Registry::new(alloc),
                forwards: Forwards::new(alloc),
                stopped: false,
            },
        }
    }

    /// Returns whether a kill was requested.
    pub fn is_stopped(&self) -> bool
        ensures { result ≡ self.now.stopped }
    {
        self.tables.stopped
    }

    /// Returns how many clients came.
    pub fn joined(&self) -> u32
        ensures { result ≡ self.now.joined }
    {
        self.tables.joined
    }

    /// Returns how many devices were plugged in.
    pub fn plugged(&self) -> u32
        ensures { result ≡ self.now.devices.drawn }
    {
        self.tables.devices.drawn()
    }

    /// Returns whether a client's number was drawn.
    pub(crate) fn is_client(&self, client: u32) -> bool
        ensures { result ≡ is_drawn self.now.joined client }
    {
        0 < client && client <= self.joined()
    }

    /// Returns whether a link's number was drawn.
    pub(crate) fn is_link(&self, link: u32) -> bool
        ensures { result ≡ is_drawn self.now.devices.drawn link }
    {
        0 < link && link <= self.plugged()
    }

    /// Returns the counts of the hub. Allocates nothing.
    pub fn summary(&self) -> Summary
        ensures { result ≡ record {
          clients = length self.now.clients;
          links = length self.now.links;
          streams = length self.now.streams.streams;
          stopped = self.now.stopped;
        } }
    {
        Summary {
            clients: count(self.tables.clients.len(), self.joined()),
            links: count(self.tables.links.len(), self.plugged()),
            streams: count(self.tables.streams.len(), u32::MAX),
            stopped: self.tables.stopped,
        }
    }
}

/// Returns a count that is at most `most`.
fn count(n: usize, most: u32) -> u32
    requires { n ≤ most }
    ensures { result ≡ n }
{
    n as u32
}
