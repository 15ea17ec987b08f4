//! The rows of the streams.

ghost use Rattle.std.specs.Prelude.{◌≡◌, ◌≢◌, ◌+◌, ℕ, Some, option_map};
ghost use Rattle.adb_outside.specs.Tables.{at, without};
ghost use Rattle.adb_stream.specs.Streams.{IsSound, with_part_in};
ghost use Rattle.adb_history.specs.Rows.{to_stream, none_kept, with_stream_part};
ghost use Rattle.adb_hub_tables.specs.Tables.{state_of};
ghost use Rattle.adb_hub_tables.specs.Places.{LinkRoom, IsCounted, Uses, freed};

use crate::tables::Tables;
use adb_stream::{Part, Stream};

impl Tables {
    /// Replaces the mutable part of a stream.
    pub fn set_part(&mut self, id: u32, stream: &Stream, part: Part)
        requires { at id self.old.streams.streams ≡ Some stream.now }
        ensures state { state_of self.new
            ≡ to_stream id (with_stream_part part) (state_of self.old) }
        ensures clients { self.new.clients ≡ self.old.clients }
        ensures links { self.new.links ≡ self.old.links }
        ensures uses { (t c : ℕ) → Uses t 0 c 0 self.old self.new }
    {
        self.put_part(id, stream.link, part);
    }

    fn put_part(&mut self, id: u32, link: u32, part: Part)
        ensures put { self.new ≡ record self.old {
          streams = with_part_in link id self.old.streams part;
        } }
        ensures sound { IsSound self.old.streams }
    {
        if let Some(old) = self.streams.find_mut(link, id) {
            *old = part;
        }
    }

    /// Removes a stream's row, and frees the place that was reserved for its end.
    pub fn drop_stream(&mut self, id: u32, stream: &Stream)
        requires { at id self.old.streams.streams ≡ Some stream.now }
        ensures state { state_of self.new ≡ to_stream id none_kept (state_of self.old) }
        ensures clients { self.new.clients ≡ self.old.clients }
        ensures rows { self.new.streams ≡ record self.old.streams {
          streams = without id self.old.streams.streams;
        } }
        ensures uses { (t c : ℕ) → Uses t 0 c 0 self.old self.new }
        ensures place { IsCounted self.old → (n : ℕ)
            → LinkRoom n (at stream.now.link self.old.links.entries)
            → LinkRoom (n + 1) (at stream.now.link self.new.links.entries) }
    {
        self.remove_stream(id);
        self.free_place(stream.link);
    }

    fn remove_stream(&mut self, id: u32)
        ensures rows { self.new ≡ record self.old {
          streams = record self.old.streams {
            streams = without id self.old.streams.streams;
          };
        } }
        ensures sound { IsSound self.old.streams }
    {
        self.streams.get(id);
        self.streams.close(id);
    }

    /// Decrements the number of a link's streams.
    fn free_place(&mut self, link: u32)
        ensures state { state_of self.new ≡ state_of self.old }
        ensures clients { self.new.clients ≡ self.old.clients }
        ensures trackers { self.new.trackers.keys ≡ self.old.trackers.keys }
        ensures streams { self.new.streams ≡ self.old.streams }
        ensures here { at link self.new.links.entries
            ≡ option_map freed (at link self.old.links.entries) }
        ensures others { (k : ℕ) → k ≢ link
            → at k self.new.links.entries ≡ at k self.old.links.entries }
    {
        if let Some(port) = self.links.get_mut(&link) {
            port.kept = port.kept.saturating_sub(1);
        }
    }
}
