//! Rows with output queues.

ghost use Rattle.std.specs.Prelude.{◌≡◌, nat_lt, ◌||◌, length};

use adb_client::Client;

/// A row that may have output to hand out.
pub trait Owes {
    ghost use Rattle.std.specs.Prelude.{◌≡◌, Bool};

    /// Whether there is output to hand out.
    ghost owed: { Self → Bool };

    /// Returns whether there is output to hand out.
    fn owes(&self) -> bool
        ensures { result ≡ owed self.now };
}

/// A client has output if its queue holds bytes, or if it tracks the devices and its list is stale.
impl Owes for Client {
    ghost owed = { λ client. nat_lt 0 (length client.due) || client.about.mark };

    fn owes(&self) -> bool {
        self.owed() > 0 || self.about().mark
    }
}
