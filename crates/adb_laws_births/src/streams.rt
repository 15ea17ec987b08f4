//! The streams of every legal history. Each function does nothing: its contract is the law.

ghost use Rattle.std.specs.Prelude.{List, ◌∷◌};
ghost use Rattle.adb_capture.specs.declared.entry.Entry.{Entry};
ghost use Rattle.adb_history.specs.Machine.{IsLegal};
ghost use Rattle.adb_history.specs.Fifo.{HasBirths};
ghost use Rattle.adb_history.specs.Opened.{AsksAtOnce};
ghost use Rattle.adb_laws_births.specs.Born.{AreBorn};
ghost use Rattle.adb_laws_births.specs.Laws.{DrawsAtMostOne};
ghost use Rattle.adb_laws_births.specs.Ending.{EndingsAreRows};

/// States that in every legal history the streams are those that were asked for, in that order, and
/// that each live stream is its client's, on its link, under the id that its device reported.
pub fn streams_are_born()
    ensures { (history : List Entry) → IsLegal history → HasBirths history }
{}

/// States that each live stream has seen the packets that its link brought since its birth: no
/// opening while the id of its device is unknown, and its opening otherwise.
pub fn streams_hear_their_links()
    ensures { (history : List Entry) → IsLegal history → AreBorn history }
{}

/// States that each entry draws at most one stream, that of its birth; every other stream after the
/// entry existed before it, and has seen the packets that the entry brought.
pub fn entries_draw_at_most_one()
    ensures { (e : Entry) (older : List Entry) → IsLegal (e ∷ older) → DrawsAtMostOne e older }
{}

/// States that in every legal history a stream is asked for at once: its OPEN is queued for its
/// device by the entry of its birth.
pub fn streams_are_asked_for_at_once()
    ensures { (history : List Entry) → IsLegal history → AsksAtOnce history }
{}

/// States that a stream that was drawn and is no longer kept has ended, and that one that is kept
/// has not, unless it is an orphan after its client's failure.
pub fn streams_live_or_end()
    ensures { (history : List Entry) → IsLegal history → EndingsAreRows history }
{}
