//! The end of a client's input.

ghost use Rattle.std.specs.Prelude.{◌≡◌, true};
ghost use Rattle.adb_server_hall.specs.Passes.{is_starved};
ghost use Rattle.adb_server_client_reader.specs.Reading.{Finishes, GivesUp};

use adb_outside::Cause;
use adb_server_hall::{ClientInOf, Hall, is_starved};
use adb_server_log::DeskError;

/// Ends a client's input, unless the hall refuses that.
pub(crate) fn finish<H: Hall>(hall: &mut H, pass: &mut ClientInOf<H>, cause: Cause)
    ensures number { pass.new.pass.number ≡ pass.old.pass.number }
    ensures starved { pass.old.pass.starved ≡ true → pass.new.pass.starved ≡ true }
    ensures told { Finishes cause pass.old.pass.number pass.old.pass.starved
        pass.new.pass.starved (H.tells hall.old) (H.tells hall.new) }
{
    let _ = hall.end(pass, cause);
}

/// Stops after a call that the hall refused. Ends the client's input if the refusal is an
/// allocation failure.
pub(crate) fn give_up<H: Hall>(hall: &mut H, pass: &mut ClientInOf<H>, error: DeskError)
    ensures number { pass.new.pass.number ≡ pass.old.pass.number }
    ensures starved { pass.old.pass.starved ≡ true → pass.new.pass.starved ≡ true }
    ensures told { GivesUp (is_starved error) pass.old.pass.number pass.old.pass.starved
        pass.new.pass.starved (H.tells hall.old) (H.tells hall.new) }
{
    if is_starved(error) {
        finish(hall, pass, Cause::Starved);
    }
}
