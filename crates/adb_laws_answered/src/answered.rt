//! The answers to a client that came by itself, in every legal history.

ghost use Rattle.std.specs.Prelude.{List};
ghost use Rattle.adb_capture.specs.declared.entry.Entry.{Entry};
ghost use Rattle.adb_history.specs.Machine.{IsLegal};
ghost use Rattle.adb_history.specs.Answered.{RepliesFirst, RepliesWhenBound};
ghost use Rattle.adb_history.specs.Answered.{ListsTracked, HasPresentList, SaysNothingMore};
ghost use Rattle.adb_laws_answered.specs.Heard.{OfWhoJoined};

/// States that a client is handed a prefix of its output, which begins with the replies to its
/// whole requests, in order.
pub fn replies_come_first()
    ensures { (history : List Entry) → IsLegal history → OfWhoJoined RepliesFirst history }
{}

/// States that no more follows the replies if no stream, list or listener was asked for.
pub fn nothing_more_is_said()
    ensures { (history : List Entry) → IsLegal history → OfWhoJoined SaysNothingMore history }
{}

/// States that a forward that waits for its port is answered when its listener is bound or has
/// failed to be, and by nothing else.
pub fn listeners_are_told()
    ensures { (history : List Entry) → IsLegal history → OfWhoJoined RepliesWhenBound history }
{}

/// States that a tracker is handed lists of the devices, each as of the moment when its first byte
/// was handed out, and nothing else.
pub fn trackers_are_handed_lists()
    ensures { (history : List Entry) → IsLegal history → OfWhoJoined ListsTracked history }
{}

/// States that a tracker with an empty output queue and a list that is not stale has the current
/// list.
pub fn trackers_have_the_present_list()
    ensures { (history : List Entry) → IsLegal history → OfWhoJoined HasPresentList history }
{}
