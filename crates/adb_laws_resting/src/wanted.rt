//! The action after a request can be done: a service fits its OPEN, the ends of a forward are
//! allowed, and a forward that is to lead elsewhere exists. Each function does nothing: its
//! contract is the law.

ghost use Rattle.std.specs.Prelude.{ℕ, ◌≡◌, ◌<◌, List, None};
ghost use Rattle.adb_outside.specs.Tables.{at};
ghost use Rattle.adb_registry.specs.Registry.{DeviceTable};
ghost use Rattle.adb_forward.specs.Forwards.{IsForwardTable, IsSpecification};
ghost use Rattle.adb_forward.specs.declared.row.ForwardRow.{ForwardRow};
ghost use Rattle.adb_capture.specs.declared.entry.Entry.{Entry};
ghost use Rattle.adb_history.specs.Rows.{Client};
ghost use Rattle.adb_history.specs.Asking.{Asked, asks_with, reads_on};
ghost use Rattle.adb_history.specs.Reading.{asked_before};
ghost use Rattle.adb_history.specs.Machine.{IsLegal, state};
ghost use Rattle.adb_laws_resting.specs.Wanted.{CanBeDone, IsRemote, IsSoundNext};

/// States that the action after the requests of a client can be done if there is no forward of port
/// 0, as is the case in every table of forwards.
pub fn what_follows_can_be_done()
    ensures read { (devices : DeviceTable) (forwards : List (ℕ × ForwardRow))
        → at 0 forwards ≡ None → (k : ℕ) (q : Asked) → IsSoundNext forwards q.next
        → IsSoundNext forwards (reads_on devices forwards k q).next }
    ensures asked { (devices : DeviceTable) (forwards : List (ℕ × ForwardRow))
        → IsForwardTable forwards → (client : Client) (bytes : List ℕ)
        → IsSoundNext forwards (asks_with devices forwards bytes (asked_before client)).next }
{}

/// States that after any legal history the forward that a client waits for is allowed, and the
/// action after its next request can be done.
pub fn what_clients_want_can_be_done()
    ensures { (history : List Entry) → IsLegal history → CanBeDone (state history) }
{}

/// States that a forward can lead from any port other than 0 to any remote end that is allowed.
pub fn a_remote_end_and_a_port_are_a_forward()
    ensures { (local : ℕ) (remote : List ℕ) → 0 < local → IsRemote remote
        → IsSpecification local remote }
{}
