//! The end of a server.

ghost use Rattle.std.specs.Prelude.{◌≡◌, ◌≢◌, false, IfSome};
ghost use Rattle.adb_server_log.specs.Log.{is_fault};
ghost use Rattle.adb_desk.specs.Left.{IsLeft};
ghost use Rattle.adb_server.specs.Ended.{KeepsHistory, is_record_fault};

use crate::server::{Ended, Served};
use adb_desk::Left;
use adb_hub::HubError;
use adb_recorder::Recorder;
use adb_server_log::DeskError;

/// Returns the end of a server that could not serve because an allocation failed.
pub(crate) fn starved<R: Recorder>() -> Ended<R>
    ensures kept { KeepsHistory R.stands R.faults result.served result.recorder }
    ensures is { result.served ≡ Served.OutOfMemory }
{
    Ended {
        served: Served::OutOfMemory,
        recorder: None,
    }
}

/// Returns the end of a server after all workers have returned, from the parts of its desk. `None`
/// for `left` means that a handle of the hall is still in use; it is reported as an allocation
/// failure. It does not occur: no worker that has returned keeps a handle.
#[tactic(auto, using(crate::proofs::Keeping::keeps_by))]
pub(crate) fn end_of<R: Recorder>(served: Served, left: Option<Left<R>>) -> Ended<R>
    requires left { IfSome left (λ left. IsLeft R.stands R.faults left) }
    requires note { served ≢ Served.WriteFault }
    ensures kept { KeepsHistory R.stands R.faults result.served result.recorder }
    ensures record { IfSome left (λ left. is_fault left.shut ≡ false)
        → result.served ≢ Served.RecordFault }
    ensures door { result.served ≡ Served.DoorFault → served ≡ Served.DoorFault }
    ensures done { result.served ≡ Served.Done → served ≡ Served.Done }
    ensures note { result.served ≢ Served.WriteFault }
{
    let Some(Left { shut, recorder }) = left else {
        return starved();
    };
    Ended {
        served: served_by(shut, served),
        recorder: Some(recorder),
    }
}

/// Returns the way in which a server ended, if its accept loop ended with `served` and its desk is
/// shut with `shut`. Only the desk knows whether the recorder failed.
fn served_by(shut: Option<DeskError>, served: Served) -> Served
    requires { served ≢ Served.WriteFault }
    ensures fault { is_record_fault result ≡ is_fault shut }
    ensures record { is_fault shut ≡ false → result ≢ Served.RecordFault }
    ensures door { result ≡ Served.DoorFault → served ≡ Served.DoorFault }
    ensures done { result ≡ Served.Done → served ≡ Served.Done }
    ensures note { result ≢ Served.WriteFault }
{
    match shut {
        Some(DeskError::RecordFault) => return Served::RecordFault,
        Some(DeskError::Hub(HubError::OutOfMemory)) => return Served::OutOfMemory,
        _ => {}
    }
    match served {
        Served::RecordFault => Served::OutOfMemory,
        _ => served,
    }
}
