//! Listeners of forwards that have ended.

ghost use Rattle.std.specs.Prelude.{◌≡◌};
ghost use Rattle.adb_server_client_reader.specs.Closing.{Spares, Stays};

use adb_binder::Binder;
use adb_server_hall::Hall;

/// Closes the next candidate of a binder, unless the hall has a forward at its port. Returns whether
/// there was a candidate without a forward.
fn close_next<H: Hall, B: Binder>(hall: &mut H, binder: &mut B) -> bool
    ensures hall { Stays (H.tells hall.old) (H.tells hall.new) }
    ensures spares { Spares (H.tells hall.old) (B.closed binder.old) (B.closed binder.new) }
    ensures answered { B.answered binder.new ≡ B.answered binder.old }
    ensures count { B.faults binder.new ≡ B.faults binder.old }
{
    let Some(port) = binder.candidate() else {
        return false;
    };
    match hall.has_forward(port) {
        Ok(true) => false,
        Ok(false) => {
            binder.close(port);
            true
        }
        Err(_) => false,
    }
}

/// Closes listeners of ports without a forward: the next candidates of a binder, up to the first
/// one whose port has a forward. It makes no entry.
///
/// It takes at most one section of the hall more than it closes listeners. The binder's candidates
/// rotate, so each call passes one listener with a forward: after as many calls as there are
/// forwards, every listener whose forward ended before is closed.
pub fn close_unused<H: Hall, B: Binder>(hall: &mut H, binder: &mut B)
    ensures hall { Stays (H.tells hall.old) (H.tells hall.new) }
    ensures spares { Spares (H.tells hall.old) (B.closed binder.old) (B.closed binder.new) }
    ensures answered { B.answered binder.new ≡ B.answered binder.old }
    ensures count { B.faults binder.new ≡ B.faults binder.old }
{
    for _ in 0..=u16::MAX {
        if !close_next(hall, binder) {
            return;
        }
    }
}
