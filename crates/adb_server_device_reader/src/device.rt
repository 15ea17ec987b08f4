//! The attachment of one device.

ghost use Rattle.std.specs.Prelude.{◌≡◌, ◌≢◌};
ghost use Rattle.adb_outside.specs.Outside.{Counts, TellsOneMore};
ghost use Rattle.adb_server_log.specs.declared.error.DeskError.{DeskError};
ghost use Rattle.adb_server_hall.specs.Telling.{Where};
ghost use Rattle.adb_server_hall.specs.Passes.{or_marked};
ghost use Rattle.adb_server_device_reader.specs.Plugging.{Plugs, HasPasses, plug_of};
ghost use Rattle.adb_server_device_reader.specs.Plugging.{is_failed_plugged, marks_plugged};

use adb_connections::{DeviceIn, DeviceOut, Plug};
use adb_outside::Kind;
use adb_server_hall::Hall;
use adb_server_log::{DeskError, LinkIn, LinkOut, Marks};
use std::sync::ledger::Ledger;

/// The result of plugging in a device.
#[derive(Drop)]
pub enum Plugged<E: Ledger, M: Ledger, K: Marks> {
    /// The device has a link, with a pass for its reader and one for its writer.
    Link {
        reading: LinkIn<E, M, K>,
        writing: LinkOut<E, M, K>,
    },
    /// The device will never come. The hall was not asked.
    Never,
    /// The device failed to plug in, and its count of faults rose. The hall was not asked.
    Failed,
    /// The hall refused the device with this error of `attach`.
    Refused(DeskError),
}

/// Asks the device once whether it is plugged in, which may wait. If it is, makes one Attach with
/// its kind and serial.
///
/// Each answer of the device has its result, also over a hall that shows nothing to contracts. The
/// caller, which holds the other half, unplugs a device that has no link.
pub fn plug_in<H: Hall, I: DeviceIn>(
    hall: &mut H,
    kind: Kind,
    serial: &[u8],
    input: &mut I,
) -> Plugged<H::Entries, H::Moved, H::Marks>
    ensures asked { TellsOneMore (I.plugs input.old) (plug_of result) (I.plugs input.new) }
    ensures told { Where (H.tells hall.old) (Plugs kind serial.now result) (H.tells hall.new) }
    ensures passes { HasPasses result }
    ensures counts { Counts I.steady I.faults input.old input.new (is_failed_plugged result) }
    ensures left { I.left input.new ≡ I.left input.old }
    ensures steady { H.Marks.steady → result ≢ Plugged.Refused DeskError.RecordFault }
    ensures mark { H.marked hall.new ≡ or_marked (marks_plugged result) (H.marked hall.old) }
{
    match input.plug() {
        Plug::Never => Plugged::Never,
        Plug::Failed => Plugged::Failed,
        Plug::Here => match hall.attach(kind, serial) {
            Ok((reading, writing)) => Plugged::Link { reading, writing },
            Err(error) => Plugged::Refused(error),
        },
    }
}
