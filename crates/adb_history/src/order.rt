//! Laws of every state that a legal history reaches. Each function does nothing: its contract is
//! the law.

ghost use Rattle.std.specs.Prelude.{List, ◌++◌, ◌∷◌};
ghost use Rattle.adb_capture.specs.declared.entry.Entry.{Entry};
ghost use Rattle.adb_history.specs.Machine.{IsLegal, state};
ghost use Rattle.adb_history.specs.Order.{AreOfBorn, IsCounted, IsNext, IsSettled};
ghost use Rattle.adb_history.specs.Orderly.{IsOrderly};

/// States that every prefix of a legal history, in time, is a legal history.
pub fn every_front_is_legal()
    ensures { (newer older : List Entry) → IsLegal (newer ++ older) → IsLegal older }
{}

/// States that as many numbers were drawn as clients came, and as links were plugged in, and that
/// each new client or link has the next number.
pub fn numbers_are_drawn_in_order()
    ensures counted { (history : List Entry) → IsLegal history → IsCounted history }
    ensures next { (e : Entry) (older : List Entry) → IsLegal (e ∷ older) → IsNext e older }
{}

/// States that no packet is queued for a stream before its birth.
pub fn no_packet_of_an_unborn_stream()
    ensures { (history : List Entry) → IsLegal history → AreOfBorn history }
{}

/// States that every state that a legal history reaches is orderly: a live stream has a connected
/// link and a client of its own, no client holds a whole request unread, and no stream may send.
pub fn every_legal_state_is_orderly()
    ensures { (history : List Entry) → IsLegal history → IsOrderly (state history) }
{}

/// States that every state that a legal history reaches is at rest: another application of the up
/// rule changes and queues nothing.
pub fn every_legal_state_is_settled()
    ensures { (history : List Entry) → IsLegal history → IsSettled (state history) }
{}
