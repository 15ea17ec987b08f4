//! Laws of clients that are gone.

ghost use Rattle.adb_history.specs.Machine.{History, IsLegal};
ghost use Rattle.adb_laws_answers.specs.Gone.{PutsAllOfClosed};

/// States that if a client is gone though its connection did not fail, and no kill was requested,
/// then all bytes queued for it were put to it, if its device closed its stream.
pub fn clients_that_go_were_put_all()
    ensures { (history : History) → IsLegal history → PutsAllOfClosed history }
{}
