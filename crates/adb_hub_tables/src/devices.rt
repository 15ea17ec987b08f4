//! Properties of devices.

ghost use Rattle.std.specs.Prelude.{◌≡◌, Some, None};
ghost use Rattle.adb_history.specs.Links.{is_connected_state, is_connected, names_credit, is_credit, maxdata_of};

use crate::tables::Tables;
use adb_banner::has_feature;
use adb_outside::{Identity, State};

impl Tables {
    /// Returns whether a transport is connected: its device has sent its identity.
    pub fn is_connected(&self, link: u32) -> bool
        ensures { result ≡ is_connected link self.now.devices }
    {
        match self.devices.row(link) {
            Some(row) => is_connected_state(row.state),
            None => false,
        }
    }

    /// Returns whether a link is a credit link: its last CNXN names the feature.
    pub fn is_credit(&self, link: u32) -> bool
        ensures { result ≡ is_credit link self.now.devices }
    {
        match self.devices.row(link) {
            Some(row) => match &row.identity {
                Some(identity) => names_credit(identity),
                None => false,
            },
            None => false,
        }
    }

    /// Returns how many payload bytes a device accepts in one packet.
    pub fn maxdata_of(&self, link: u32) -> usize
        ensures { result ≡ maxdata_of link self.now.devices }
    {
        match self.devices.row(link) {
            Some(row) => row.maxdata as usize,
            None => 0,
        }
    }
}

fn is_connected_state(state: State) -> bool
    ensures { result ≡ is_connected_state state }
{
    !matches!(state, State::Offline | State::Unauthorized)
}

fn names_credit(identity: &Identity) -> bool
    ensures { result ≡ names_credit (Some identity.now) }
{
    has_feature(identity, b"hub_credit")
}
