//! The admission of one client or device.

ghost use Rattle.std.specs.Prelude.{◌≡◌, ◌≢◌};
ghost use Rattle.adb_outside.specs.Outside.{Counts};
ghost use Rattle.adb_connections.specs.Door.{Lasts};
ghost use Rattle.adb_server_log.specs.declared.error.DeskError.{DeskError};
ghost use Rattle.adb_server_client_reader.specs.declared.admitting.Admitted.{Admitted};
ghost use Rattle.adb_server_client_reader.specs.Admitting.{HasPair, IsAdmission, is_closed, is_failed};
ghost use Rattle.adb_server_client_reader.specs.Admitting.{marked_by};

use adb_connections::{Came, Device, DeviceIn, DeviceOut, Door};
use adb_server_hall::Hall;
use adb_server_log::{ClientIn, ClientOut, DeskError, Marks};
use std::sync::ledger::Ledger;

/// The result of `admit`.
#[derive(Drop)]
pub enum Admitted<I: Drop, O: Drop, X: DeviceIn, Z: DeviceOut, E: Ledger, M: Ledger, K: Marks> {
    /// A client: the two halves of its connection, and the passes of its reader and its writer.
    Client {
        input: I,
        output: O,
        reading: ClientIn<E, M, K>,
        writing: ClientOut<E, M, K>,
    },
    /// A device, which has no link yet. The hall was not asked.
    Device(Device<X, Z>),
    /// The door reported that no more connections come.
    Closed,
    /// The door failed.
    Failed,
    /// The hall refused the client, and the connection is dropped. The hall is unchanged, or its
    /// recorder shut it.
    Refused(DeskError),
}

/// Accepts one client or device at the door and admits a client. A client that comes to the port of
/// a forward enters through that forward; any other client joins the hall. A device is returned as
/// it came.
///
/// Each answer of the door has its result: `Closed` and `Failed` are the door's, a device that came
/// is returned, and a client that came is admitted or refused. That also holds over a hall that
/// shows nothing to contracts.
pub fn admit<H: Hall, D: Door>(
    hall: &mut H,
    door: &mut D,
) -> Admitted<D::In, D::Out, D::DeviceIn, D::DeviceOut, H::Entries, H::Moved, H::Marks>
    ensures told { IsAdmission result (H.tells hall.old) (H.tells hall.new) (D.came door.old)
        (D.came door.new) }
    ensures passes { HasPair result }
    ensures mark { H.marked hall.new ≡ marked_by result (H.marked hall.old) }
    ensures steady { H.Marks.steady → result ≢ Admitted.Refused DeskError.RecordFault }
    ensures counts { Counts D.steady D.faults door.old door.new (is_failed result) }
    ensures lasts { Lasts (D.lasting door.old) (D.lasting door.new) (is_closed result) }
{
    match door.accept() {
        Came::Closed => Admitted::Closed,
        Came::Failed => Admitted::Failed,
        Came::Device(device) => Admitted::Device(device),
        Came::Port(input, output) => match hall.join() {
            Err(error) => Admitted::Refused(error),
            Ok((reading, writing)) => Admitted::Client {
                input,
                output,
                reading,
                writing,
            },
        },
        Came::Forward(port, input, output) => match hall.enter(port) {
            Err(error) => Admitted::Refused(error),
            Ok((reading, writing)) => Admitted::Client {
                input,
                output,
                reading,
                writing,
            },
        },
    }
}
