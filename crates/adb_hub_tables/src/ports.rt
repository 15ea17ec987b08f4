//! A device's link, with the places that are reserved for the ends of its streams.

ghost use Rattle.std.specs.Prelude.{◌≡◌, ◌<◌, ◌≤◌, ◌-◌, length, nat_lt};
ghost use Rattle.adb_wire.specs.Format.{packet_under};
ghost use Rattle.adb_link.specs.Linked.{IsHeadOf};
ghost use Rattle.adb_hub_tables.specs.Tables.{link_row, owing_row};

use crate::owes::Owes;
use adb_link::{Link, MAX_SHORT};
use adb_outside::SplitBytes;
use adb_wire::Head;

/// A device's link, and the number of places that are reserved on it for the packets that end its
/// streams.
#[derive(Drop)]
pub struct Port {
    pub link: Link,
    pub kept: usize,
}

impl Port {
    /// Queues a packet with a payload of at most eight bytes, in a place that was reserved.
    pub fn owe_short(&mut self, head: &Head, payload: &[u8])
        requires place { 0 < self.old.link.spare }
        requires head { IsHeadOf head.now payload.now }
        requires short { length payload.now ≤ MAX_SHORT }
        ensures row { link_row self.new
            ≡ owing_row (packet_under head.now payload.now) (link_row self.old) }
        ensures place { self.new.link.spare ≡ self.old.link.spare - 1 }
        ensures kept { self.new.kept ≡ self.old.kept }
        ensures read { self.new.link.incoming ≡ self.old.link.incoming }
    {
        self.link.owe_short_spare(head, payload);
    }

    /// Queues a packet, in a place that was reserved.
    pub fn owe_slice(&mut self, head: &Head, payload: SplitBytes)
        requires place { 0 < self.old.link.spare }
        requires head { IsHeadOf head.now payload }
        ensures row { link_row self.new
            ≡ owing_row (packet_under head.now payload) (link_row self.old) }
        ensures place { self.new.link.spare ≡ self.old.link.spare - 1 }
        ensures kept { self.new.kept ≡ self.old.kept }
        ensures read { self.new.link.incoming ≡ self.old.link.incoming }
    {
        self.link.owe_slice_spare(head, payload);
    }
}

/// A link has output if its queue holds bytes.
impl Owes for Port {
    ghost owed = { λ port. nat_lt 0 (length port.link.due) };

    fn owes(&self) -> bool {
        self.link.owed() > 0
    }
}
