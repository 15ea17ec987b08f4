//! The bytes that an entry sends to devices, after any legal history. Each function does nothing:
//! its contract is the law.

ghost use Rattle.std.specs.Prelude.{List};
ghost use Rattle.adb_capture.specs.declared.entry.Entry.{Entry};
ghost use Rattle.adb_history.specs.Machine.{IsLegal, state};
ghost use Rattle.adb_laws_resting.specs.Resting.{AllSized, GoesUpAlone, SendsNothingBy};

/// States that the step of an entry is its rule, and that nothing more is sent, unless a client
/// that has its stream open wrote or ended in order, or bytes of a device complete a packet or are
/// wrong.
pub fn most_entries_send_nothing()
    ensures { (history : List Entry) → IsLegal history → SendsNothingBy (state history) }
{}

/// States that the bytes of a client that has its stream open are sent on that stream alone, and
/// that the end of its input sends no more bytes.
pub fn a_client_sends_up_its_own_stream()
    ensures { (history : List Entry) → IsLegal history → GoesUpAlone (state history) }
{}

/// States that no device accepts more bytes in one packet than the server announces for itself.
pub fn no_device_takes_more()
    ensures { (history : List Entry) → IsLegal history → AllSized (state history) }
{}
