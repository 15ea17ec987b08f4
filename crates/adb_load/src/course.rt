//! The course of a load, turn by turn.

ghost use Rattle.std.specs.Prelude.{◌≡◌, ◌<◌, Some, IfOk, OnErr, length};
ghost use Rattle.adb_load.specs.Course.{begin, draw, plug_in, start, turn, streams_after};

use crate::act::Act;
use crate::live::{Live, Moved};
use crate::numbers::{DEVICES, MAX_LIVE};
use rand_core::SeedableRng;
use rand_core::utils::NextWord;
use rand_pcg::Pcg32;
use std::alloc::{AllocError, Global};
use std::marker::Model;

/// The state of a load in progress. Contracts see it as its `Progress`.
#[derive(Drop)]
pub(crate) struct Course {
    plugged: u16,
    streams: u16,
    begun: u16,
    live: Vec<Live>,
    words: Pcg32,
}

impl Model for Course {
    ghost use Rattle.std.specs.Prelude.{◌<◌, ◌^◌};
    ghost use Rattle.adb_load.specs.Course.{Progress};

    ghost Value = { Progress };

    ghost view = { λ course. record {
      plugged = course.plugged;
      streams = course.streams;
      begun = course.begun;
      live = course.live.items;
      words = course.words;
    } };

    ghost invariant = { λ course. course.streams < 2 ^ 16 };
}

impl Course {
    /// Returns a load of `streams` streams before its first turn.
    pub(crate) fn new(alloc: Global, seed: u64, streams: u16) -> Result<Course, AllocError>
        ensures { IfOk result (λ course. course ≡ start seed streams) }
    {
        Ok(Course {
            plugged: 0,
            streams,
            begun: 0,
            live: Vec::with_capacity(alloc, MAX_LIVE)?,
            words: Pcg32::seed_from_u64(seed),
        })
    }

    /// Takes a turn, and returns its act; `None` if the load is over. If an allocation fails, the
    /// load is unchanged.
    #[tactic(auto, unfolding(crate::specs::Course::turn))]
    pub(crate) fn turn(&mut self) -> Result<Option<Act>, AllocError>
        ensures ok { IfOk result (λ act. record { act = act; after = self.new } ≡ turn self.old) }
        ensures err { OnErr result (self.new ≡ self.old) }
    {
        if self.plugged < DEVICES {
            return Ok(Some(self.plug_in()));
        }
        if self.live.len() < MAX_LIVE && self.begun < self.streams {
            return Ok(Some(self.begin()?));
        }
        if self.live.is_empty() {
            return Ok(None);
        }
        Ok(Some(self.draw()))
    }

    /// Plugs in the next device.
    fn plug_in(&mut self) -> Act
        requires { self.old.plugged < DEVICES }
        ensures { record { act = Some result; after = self.new } ≡ plug_in self.old }
    {
        self.plugged += 1;
        Act::Plug { link: self.plugged }
    }

    /// Begins the next stream. If an allocation fails, the stream has not begun.
    fn begin(&mut self) -> Result<Act, AllocError>
        requires { self.old.begun < self.old.streams }
        ensures ok { IfOk result
            (λ act. record { act = Some act; after = self.new } ≡ begin self.old) }
        ensures err { OnErr result (self.new ≡ self.old) }
    {
        let stream = self.begun;
        self.live.push(Live::new(stream))?;
        self.begun += 1;
        Ok(Act::Come { stream })
    }

    /// Draws a word, with which one of the live streams moves.
    fn draw(&mut self) -> Act
        requires { 0 < length self.old.live }
        ensures { record { act = Some result; after = self.new } ≡ draw self.old }
    {
        let word = self.words.next_word();
        let place = word as usize % self.live.len();
        let moved = self.live[place].moved(word);
        self.set(place, moved.after);
        moved.act
    }

    /// Replaces the stream at a place that moved, or removes it if it ended.
    fn set(&mut self, place: usize, after: Option<Live>)
        requires { place < length self.old.live }
        ensures { self.new ≡ record self.old { live = streams_after place after self.old.live } }
    {
        match after {
            Some(live) => self.live[place] = live,
            None => {
                self.live.remove(place);
            }
        }
    }
}
