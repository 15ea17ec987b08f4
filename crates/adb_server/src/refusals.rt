//! The decision whether the server continues after its hall refused a client or a device.

ghost use Rattle.std.specs.Prelude.{◌≢◌, Err};
ghost use Rattle.adb_server_log.specs.declared.error.DeskError.{DeskError};

use crate::server::Served;
use adb_hub::HubError;
use adb_server_hall::Hall;
use adb_server_log::DeskError;
use adb_server_work::Parts;

/// Returns `Ok` if the server continues after this refusal.
///
/// - `OutOfMemory`: an allocation failed. The hall is halted.
/// - `RecordFault`: the recorder failed, which shut the hall.
pub(crate) fn go_on<P: Parts, H: Hall<Entries = P::Entries, Moved = P::Moved, Marks = P::Marks>>(
    hall: &mut H,
    error: DeskError,
) -> Result<(), Served>
    ensures record { error ≢ DeskError.RecordFault → result ≢ Err Served.RecordFault }
    ensures other { (result ≢ Err Served.DoorFault) × (result ≢ Err Served.Done)
        × (result ≢ Err Served.WriteFault) }
{
    match error {
        DeskError::Hub(HubError::OutOfMemory) => {
            hall.halt();
            Err(Served::OutOfMemory)
        }
        DeskError::RecordFault => Err(Served::RecordFault),
        _ => Ok(()),
    }
}

/// Returns `Ok` if the server continues after this refusal of a device that came through the door.
/// It does so after an allocation failure too, unless that shut the hall: the device is dialled
/// again later.
///
/// - `OutOfMemory`: an allocation of the recorder failed, which shut the hall.
/// - `RecordFault`: the recorder failed, which shut the hall.
pub(crate) fn go_on_without<
    P: Parts,
    H: Hall<Entries = P::Entries, Moved = P::Moved, Marks = P::Marks>,
>(hall: &mut H, error: DeskError) -> Result<(), Served>
    ensures record { P.Marks.steady → error ≢ DeskError.RecordFault
        → result ≢ Err Served.RecordFault }
    ensures other { (result ≢ Err Served.DoorFault) × (result ≢ Err Served.Done)
        × (result ≢ Err Served.WriteFault) }
{
    match error {
        DeskError::RecordFault => Err(Served::RecordFault),
        DeskError::Hub(HubError::OutOfMemory) => match hall.over() {
            Some(over) => go_on::<P, H>(hall, over),
            None => Ok(()),
        },
        _ => Ok(()),
    }
}
