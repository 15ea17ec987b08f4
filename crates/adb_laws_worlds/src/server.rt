//! Laws of a server in every legal history.

ghost use Rattle.adb_history.specs.Machine.{History, IsLegal};
ghost use Rattle.adb_laws_worlds.specs.Credit.{HasOneDevice, LiveOnFirst};
ghost use Rattle.adb_laws_worlds.specs.Greeted.{GreetsLinks};
ghost use Rattle.adb_laws_worlds.specs.Quiet.{TakePayloads, OpenAreServed};
ghost use Rattle.adb_laws_worlds.specs.Unclosed.{SentNoClose, HeardNoClose};

/// States that the first packet queued for each link that was plugged in is the server's CNXN, and
/// there is no other; for a link that was not plugged in, nothing is queued.
pub fn links_are_greeted()
    ensures { (history : History) → IsLegal history → GreetsLinks history }
{}

/// States that no CLSE of a live stream was queued.
pub fn streams_that_live_sent_no_close()
    ensures { (history : History) → IsLegal history → SentNoClose history }
{}

/// States that a live stream that is open got no CLSE after its opening.
pub fn streams_that_live_heard_no_close()
    ensures { (history : History) → IsLegal history → HeardNoClose history }
{}

/// States that a connected device accepts payloads of at least 4,096 bytes.
pub fn connected_devices_take_payloads()
    ensures { (history : History) → IsLegal history → TakePayloads history }
{}

/// States that the client of an open stream exists and has it open. If the client's output queue is
/// empty, nothing of the stream is to be handed out; if no write is outstanding, and the stream has
/// no credit, the client holds nothing.
pub fn open_streams_are_served()
    ensures { (history : History) → IsLegal history → OpenAreServed history }
{}

/// States that if at most one device was plugged in, each live stream is on the first link.
pub fn streams_of_one_device_are_on_its_link()
    ensures { (history : History) → IsLegal history → HasOneDevice history
        → LiveOnFirst history }
{}
