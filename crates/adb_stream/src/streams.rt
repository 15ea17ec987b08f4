//! The live streams.

ghost use Rattle.std.specs.Prelude.{◌≡◌, ◌+◌, ◌↔◌, [], length, Err, IfOk, OnErr, MatchOption, option_map};
ghost use Rattle.std.specs.Option.{option_copied, option_copied_mut};
ghost use Rattle.adb_outside.specs.Tables.{at, put_at, without};
ghost use Rattle.adb_stream.specs.Flow.{new_flow};
ghost use Rattle.adb_stream.specs.Stream.{new_stream};
ghost use Rattle.adb_stream.specs.Streams.{IsSound, found, IsFirstOf, HasNoneOf};
ghost use Rattle.adb_stream.specs.declared.streams.DrawError.TheVariants.{OutOfMemory};

use crate::flow::Flow;
use crate::row::{Part, Stream};
use crate::shelf::Shelf;
use std::alloc::{AllocError, Global};
use std::marker::Model;

/// The reason why no stream was drawn.
#[derive(Clone, Copy, Debug, PartialEq, Eq, Drop)]
pub enum DrawError {
    /// All ids were used.
    NoIds,
    OutOfMemory,
}

impl From<AllocError> for DrawError {
    ghost from_gives = { λ _ e. e ≡ OutOfMemory };

    fn from(_error: AllocError) -> DrawError {
        DrawError::OutOfMemory
    }
}

/// The live streams, by their ids, which are drawn 1, 2, 3 and so on over the whole server and
/// never used again. Contracts see how many ids were drawn, and the streams in rising id. No call
/// looks at streams other than those it is about, and the memory of a closed stream is reused for
/// the next.
#[derive(Drop)]
pub struct Streams {
    drawn: u32,
    shelf: Shelf,
}

impl Model for Streams {
    ghost use Rattle.adb_stream.specs.Streams.{StreamTable};

    ghost Value = { StreamTable };

    ghost use Rattle.adb_stream.specs.Shelf.{IsIndexed, table_of};

    ghost view = { λ s. table_of s.drawn s.shelf };

    ghost invariant = { λ s. IsIndexed s.drawn s.shelf };
}

impl Streams {
    ghost use Rattle.std.specs.Borrow.{sem};
    ghost use Rattle.adb_stream.specs.Lending.{LendsPart};

    /// Returns the state without streams, before any id is drawn. Allocates nothing.
    pub fn new(alloc: Global) -> Streams
        ensures { result ≡ record { drawn = 0; streams = [] } }
    {
        Streams {
            drawn: 0,
            shelf: Shelf::new(alloc),
        }
    }

    /// Draws the next id, for a stream of a client and a link, and returns it. The stream has a
    /// credit in bytes if `credit` is set, and otherwise one write each way. `NoIds` is returned
    /// exactly if 2^32 - 1 ids were drawn. After an error the streams are unchanged.
    pub fn draw(&mut self, client: u32, link: u32, credit: bool) -> Result<u32, DrawError>
        ensures no_ids { (result ≡ Err DrawError.NoIds) ↔ (self.old.drawn ≡ u32.MAX) }
        ensures id { IfOk result (λ id. id ≡ self.old.drawn + 1) }
        ensures after { IfOk result (λ id. self.new ≡ record {
          drawn = id;
          streams = put_at id (new_stream id client link (new_flow credit)) self.old.streams;
        }) }
        ensures err { OnErr result (self.new ≡ self.old) }
        ensures sound { IsSound self.new }
    {
        let Some(id) = self.drawn.checked_add(1) else {
            return Err(DrawError::NoIds);
        };
        self.shelf.add(id, client, link, Flow::new(credit))?;
        self.drawn = id;
        Ok(id)
    }

    /// Returns the stream of an id, or `None` if it does not live. Allocates nothing.
    pub fn get(&self, id: u32) -> Option<&Stream>
        ensures found { option_copied result ≡ at id self.now.streams }
        ensures sound { IsSound self.now }
    {
        self.shelf.get(id)
    }

    /// Returns the stream of this id, exactly if it lives and is one of this link.
    pub fn find(&self, link: u32, id: u32) -> Option<&Stream>
        ensures found { option_copied result ≡ found link id self.now.streams }
        ensures sound { IsSound self.now }
    {
        self.shelf.find(link, id)
    }

    /// Returns the part of the stream of this id for writing, exactly if it lives and is one of
    /// this link.
    pub fn find_mut(&mut self, link: u32, id: u32) -> Option<&mut Part>
        ensures* writes_back { sem 𝓛 (LendsPart self.entry link id result) }
        ensures found { option_copied_mut result
            ≡ option_map (λ stream. stream.part) (found link id self.old.streams) }
        ensures sound { IsSound self.old }
    {
        self.shelf.find_mut(link, id)
    }

    /// Removes the stream of this id, if it lives, and returns it.
    pub fn close(&mut self, id: u32) -> Option<Stream>
        ensures was { result ≡ at id self.old.streams }
        ensures after { self.new ≡ record self.old { streams = without id self.old.streams } }
        ensures sound { IsSound self.new }
    {
        self.shelf.remove(id)
    }

    /// Removes all streams. The ids that were drawn are not reused. Allocates nothing.
    pub fn clear(&mut self)
        ensures after { self.new ≡ record self.old { streams = [] } }
        ensures sound { IsSound self.new }
    {
        self.shelf.clear();
    }

    /// Returns the number of live streams.
    pub fn len(&self) -> usize
        ensures count { result ≡ length self.now.streams }
        ensures sound { IsSound self.now }
    {
        self.shelf.len()
    }

    /// States the invariant of the streams of every server. It does nothing: its contract is the
    /// law.
    pub fn are_sound(&self)
        ensures { IsSound self.now }
    {
        let _ = &self.drawn;
    }

    /// Returns the least id of a live stream of this link.
    pub fn first_of(&self, link: u32) -> Option<u32>
        ensures first { MatchOption result
            (HasNoneOf link self.now.streams) (IsFirstOf link self.now.streams) }
        ensures sound { IsSound self.now }
    {
        self.shelf.first_of(link)
    }
}
