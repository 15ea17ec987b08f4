//! A part of the answers.

ghost use Rattle.std.specs.Prelude.{◌≡◌, ◌≢◌, ◌<◌, ◌≤◌, ◌==◌, [], length, drop};
ghost use Rattle.std.specs.Io.{StartsWith};
ghost use Rattle.adb_files.specs.Part.{part_bytes};

use crate::pull::Pull;
use adb_outside::ByteQueue;

/// Answers that are handed out in the same way.
#[derive(Drop)]
pub enum Part {
    Spelled(ByteQueue),
    Pull(Pull),
}

impl Part {
    /// Returns the first bytes that were not taken yet: at least one if any are left.
    pub fn front(&self) -> &[u8]
        ensures front { StartsWith (part_bytes self.now) result.now }
        ensures some { part_bytes self.now ≢ [] → result.now ≢ [] }
    {
        match self {
            Part::Spelled(spelled) => spelled.as_slice(),
            Part::Pull(pull) => pull.front(),
        }
    }

    /// Removes at most the first `n` bytes. Returns how many: at least one if any are left. Needs
    /// no memory.
    pub fn take_front(&mut self, n: usize) -> usize
        ensures most { result ≤ n }
        ensures here { result ≤ length (part_bytes self.old) }
        ensures some { 0 < n → part_bytes self.old ≢ [] → 0 < result }
        ensures left { part_bytes self.new ≡ drop result (part_bytes self.old) }
    {
        match self {
            Part::Spelled(spelled) => {
                let taken = n.min(spelled.len());
                spelled.take(taken);
                spelled.give_back();
                taken
            }
            Part::Pull(pull) => pull.take_front(n),
        }
    }

    /// Returns whether no byte is left.
    pub fn is_empty(&self) -> bool
        ensures { result ≡ (length (part_bytes self.now) == 0) }
    {
        match self {
            Part::Spelled(spelled) => spelled.is_empty(),
            Part::Pull(pull) => pull.is_empty(),
        }
    }
}
