//! Pieces that complete no packet.

ghost use Rattle.std.specs.Prelude.{◌≡◌, ◌≢◌, ◌++◌, ℕ, Some, OnOk, OnErr, option_map};
ghost use Rattle.adb_outside.specs.Tables.{at};
ghost use Rattle.adb_wire.specs.Deframing.{Waits};
ghost use Rattle.adb_hub_tables.specs.declared.ports.Port.{Port};
ghost use Rattle.adb_hub_links.specs.Cutting.{IsClear};
ghost use Rattle.adb_hub_links.specs.Settling.{waiting};

use adb_hub_tables::{Port, TouchedMap};
use adb_link::Link;
use std::alloc::AllocError;

/// Holds a piece that completes no packet after the held bytes of a link.
pub(crate) fn wait(links: &mut TouchedMap<Port>, link: u32, piece: &[u8]) -> Result<(), AllocError>
    requires clear { (port : Port) → at link links.old.entries ≡ Some port
        → IsClear port.link.incoming }
    requires short { (port : Port) → at link links.old.entries ≡ Some port
        → Waits port.link.incoming piece.now }
    ensures here { OnOk result (at link links.new.entries
        ≡ option_map (waiting piece.now) (at link links.old.entries)) }
    ensures apart { (k : ℕ) → k ≢ link → at k links.new.entries ≡ at k links.old.entries }
    ensures kept { OnErr result ((k : ℕ) → at k links.new.entries ≡ at k links.old.entries) }
{
    match links.get_mut(&link) {
        Some(port) => hold(&mut port.link, piece),
        None => Ok(()),
    }
}

fn hold(link: &mut Link, piece: &[u8]) -> Result<(), AllocError>
    requires clear { IsClear link.old.incoming }
    requires short { Waits link.old.incoming piece.now }
    ensures ok { OnOk result (link.new ≡ record link.old {
      incoming = record link.old.incoming { rest = link.old.incoming.rest ++ piece.now };
    }) }
    ensures err { OnErr result (link.new ≡ link.old) }
{
    link.hold(piece)
}
