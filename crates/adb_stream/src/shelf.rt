//! The streams in a slab, with indices by id, and by link and id.

ghost use Rattle.std.specs.Prelude.{◌≡◌, ◌<◌, ◌≤◌, ◌^◌, ℕ, [], length, Some, None, IfOk, IfSome, OnErr, OnOk, IsSome, MatchOption, option_map};
ghost use Rattle.std.specs.Option.{option_copied, option_copied_mut};
ghost use Rattle.std.specs.Borrow.{sem};
ghost use Rattle.adb_outside.specs.Tables.{IsRising, put_row};
ghost use Rattle.adb_stream.specs.Stream.{new_stream};
ghost use Rattle.adb_stream.specs.Shelf.{keys_of, slots_of, index_of, stream_of, put_place, emptied, displaced, IsFoundAt};
ghost use Rattle.adb_stream.specs.Lending.{LendsAt};

use crate::flow::Flow;
use crate::row::{Part, Stream};
use adb_rows::RowMap;
use slab::Slab;
use std::alloc::{AllocError, Global};
use std::collections::BTreeMap;

/// The streams, each under a key of the slab, with indices by id, and by link and id.
#[derive(Drop)]
pub(crate) struct Shelf {
    rows: Slab<Stream>,
    keys: RowMap<usize>,
    index: BTreeMap<(u32, u32), usize>,
}

impl Shelf {
    /// Returns a shelf without streams. Allocates nothing.
    pub(crate) fn new(alloc: Global) -> Shelf
        ensures keys { result.keys.entries ≡ [] }
        ensures slots { result.rows.slots ≡ [] }
        ensures index { result.index.entries ≡ [] }
    {
        Shelf {
            rows: Slab::new(alloc),
            keys: RowMap::new(alloc),
            index: BTreeMap::new(alloc),
        }
    }

    /// Inserts a new stream under an id that has none, and returns its key.
    pub(crate) fn add(
        &mut self,
        id: u32,
        client: u32,
        link: u32,
        flow: Flow,
    ) -> Result<usize, AllocError>
        ensures vacant { IfOk result (λ key. slots_of self.old key ≡ None) }
        ensures keys { IfOk result (λ key.
            keys_of self.new ≡ put_row id (Some key) (keys_of self.old)) }
        ensures slots { let stream = new_stream id client link flow in
            IfOk result (λ key. slots_of self.new ≡ put_row key (Some stream) (slots_of self.old)) }
        ensures index { IfOk result (λ key.
            index_of self.new ≡ put_place link id (Some key) (index_of self.old)) }
        ensures rises { OnOk result (IsRising self.new.keys.entries) }

        ensures err_keys { OnErr result (self.new.keys.entries ≡ self.old.keys.entries) }
        ensures err_slots { OnErr result (slots_of self.new ≡ slots_of self.old) }
        ensures err_index { OnErr result (index_of self.old link id ≡ None
            → index_of self.new ≡ index_of self.old) }
    {
        self.rows.reserve(1)?;
        let key = self.rows.vacant_key();
        self.place(link, id, key)?;
        let part = Part {
            remote: 0,
            orphan: false,
            flow,
        };
        self.rows.insert_reserved(Stream {
            id,
            client,
            link,
            part,
        });
        Ok(key)
    }

    /// Adds a key under an id that has none, and under its link.
    fn place(&mut self, link: u32, id: u32, key: usize) -> Result<(), AllocError>
        ensures rows { self.new.rows ≡ self.old.rows }
        ensures keys { OnOk result (keys_of self.new ≡ put_row id (Some key) (keys_of self.old)) }
        ensures index { OnOk result (
            index_of self.new ≡ put_place link id (Some key) (index_of self.old)) }
        ensures rises { OnOk result (IsRising self.new.keys.entries) }
        ensures err_keys { OnErr result (self.new.keys.entries ≡ self.old.keys.entries) }
        ensures err_index { OnErr result (index_of self.old link id ≡ None
            → index_of self.new ≡ index_of self.old) }
    {
        self.index.insert((link, id), key)?;
        if self.keys.insert(id, key).is_err() {
            self.index.remove(&(link, id));
            return Err(AllocError);
        }
        self.keys_rise();
        Ok(())
    }

    /// Removes the stream of an id and returns it.
    pub(crate) fn remove(&mut self, id: u32) -> Option<Stream>
        ensures was { result ≡ stream_of (slots_of self.old) (keys_of self.old id) }
        ensures keys { keys_of self.new ≡ put_row id None (keys_of self.old) }
        ensures slots { slots_of self.new ≡ emptied (keys_of self.old id) (slots_of self.old) }
        ensures index { index_of self.new ≡ displaced result id (index_of self.old) }
        ensures rises { IsRising self.new.keys.entries }
    {
        let found = self.keys.remove(&id);
        self.keys_rise();
        let key = found?;
        let stream = self.rows.try_remove(key)?;
        self.index.remove(&(stream.link, id));
        Some(stream)
    }

    /// Removes all streams. Allocates nothing.
    pub(crate) fn clear(&mut self)
        ensures keys { self.new.keys.entries ≡ [] }
        ensures slots { self.new.rows.slots ≡ [] }
        ensures index { self.new.index.entries ≡ [] }
        ensures rises { IsRising self.new.keys.entries }
    {
        self.rows.clear();
        self.keys.clear();
        self.index.clear();
        self.keys_rise();
    }

    /// States that the ids of the keys rise. It does nothing: its contract is the law.
    fn keys_rise(&self)
        ensures { IsRising self.now.keys.entries }
    {
        self.keys.len();
    }

    /// Returns the stream of an id.
    pub(crate) fn get(&self, id: u32) -> Option<&Stream>
        ensures { option_copied result ≡ stream_of (slots_of self.now) (keys_of self.now id) }
    {
        let key = self.keys.get(&id)?;
        self.rows.get(*key)
    }

    /// Returns the stream of a link and an id.
    pub(crate) fn find(&self, link: u32, id: u32) -> Option<&Stream>
        requires { IsFoundAt self.now link id }
        ensures { option_copied result ≡ stream_of (slots_of self.now) (index_of self.now link id) }
    {
        let key = self.key_of(link, id)?;
        self.rows.get(key)
    }

    /// Returns the part of the stream of a link and an id, for writing.
    pub(crate) fn find_mut(&mut self, link: u32, id: u32) -> Option<&mut Part>
        requires { IsFoundAt self.old link id }
        ensures* writes_back { sem 𝓛 (LendsAt self.entry (index_of self.old link id) result) }
        ensures value { option_copied_mut result ≡ option_map (λ stream. stream.part)
            (stream_of (slots_of self.old) (index_of self.old link id)) }
    {
        let key = self.key_of(link, id)?;
        let stream = self.rows.get_mut(key)?;
        Some(&mut stream.part)
    }

    /// Returns the key of a link and an id: that of the id, if its stream is one of the link. The
    /// index by link holds the same key, but would have to be searched.
    fn key_of(&self, link: u32, id: u32) -> Option<usize>
        requires { IsFoundAt self.now link id }
        ensures { result ≡ index_of self.now link id }
    {
        let key = *self.keys.get(&id)?;
        if self.rows.get(key)?.link != link {
            return None;
        }
        Some(key)
    }

    /// Returns the number of streams.
    pub(crate) fn len(&self) -> usize
        ensures { result ≡ length self.now.keys.entries }
    {
        self.keys.len()
    }

    /// Returns the least id of a link in the index.
    pub(crate) fn first_of(&self, link: u32) -> Option<u32>
        ensures here { MatchOption result
            ((id : ℕ) → id < 2 ^ 32 → index_of self.now link id ≡ None)
            (λ id. IsSome (index_of self.now link id)) }
        ensures least { IfSome result (λ first.
            (id : ℕ) → id < 2 ^ 32 → IsSome (index_of self.now link id) → first ≤ id) }
    {
        let (place, _key) = self.index.range((link, 0)..=(link, u32::MAX)).next()?;
        Some(place.1)
    }
}
