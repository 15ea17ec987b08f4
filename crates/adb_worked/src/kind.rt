//! The kinds of worked texts.

ghost use Rattle.std.specs.Prelude.{◌≤◌, All};

use crate::{asks, commands, exchanges, runs};
use adb_outside::Text;
use std::alloc::{AllocError, Global};

/// A kind of worked texts.
#[derive(Clone, Copy, Drop)]
pub enum Kind {
    /// Requests to a sync service, and the results of the answers.
    Asks,
    /// The words of a command, its capture, and the end of its run.
    Commands,
    /// The bytes that a host sends to a model device, and everything that goes over the link.
    Exchanges,
    /// A capture, and the end of its replay.
    Histories,
}

/// All kinds, in the order of their folders.
pub const KINDS: [Kind; 4] = [Kind::Asks, Kind::Commands, Kind::Exchanges, Kind::Histories];

impl Kind {
    /// Returns the folder of its texts.
    pub fn folder(self) -> &'static str {
        match self {
            Kind::Asks => "asks",
            Kind::Commands => "commands",
            Kind::Exchanges => "exchanges",
            Kind::Histories => "histories",
        }
    }

    /// Returns the suffix of the names of its files.
    pub fn ending(self) -> &'static str {
        match self {
            Kind::Asks => ".asks",
            Kind::Commands => ".words",
            Kind::Exchanges => ".host",
            Kind::Histories => ".capture",
        }
    }

    /// Returns the maximum sizes of the pieces in which each text is played.
    pub fn pieces(self) -> &'static [usize]
        ensures { All (λ size. 1 ≤ size) result.now }
    {
        match self {
            Kind::Asks => &[1, 24, 65_536],
            Kind::Commands | Kind::Histories => &[1, 65_536],
            Kind::Exchanges => &[1, 5, 24, 65_536],
        }
    }

    /// Plays the text with that name, and returns the printed course.
    pub fn told(
        self,
        alloc: Global,
        name: &str,
        played: &[u8],
        piece: usize,
    ) -> Result<Text, AllocError>
        requires { 1 ≤ piece }
    {
        match self {
            Kind::Asks => asks::told(alloc, played, piece),
            Kind::Commands => commands::told(alloc, played, piece),
            Kind::Exchanges => exchanges::told(alloc, name, played, piece),
            Kind::Histories => runs::replay_told(alloc, played, piece),
        }
    }
}
