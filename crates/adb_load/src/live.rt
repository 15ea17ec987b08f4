//! A live stream of a load, and its move by a drawn word.

ghost use Rattle.std.specs.Prelude.{◌≡◌, ◌<◌};
ghost use Rattle.adb_load.specs.Acts.{up_size, down_size};
ghost use Rattle.adb_load.specs.Streams.{live_at_first, portion, is_set, goes_up, moved_up, moved_down, ended, moved};

use crate::act::{Act, Piece};

/// A live stream: its number, and how many bytes are left in each direction.
#[derive(Clone, Copy, Drop)]
pub(crate) struct Live {
    pub number: u16,
    pub up: u16,
    pub down: u16,
}

/// A move of a stream: its act, and the stream afterwards, if it is still alive.
#[derive(Clone, Copy, Drop)]
pub(crate) struct Moved {
    pub act: Act,
    pub after: Option<Live>,
}

impl Live {
    /// Returns the stream of a number, as it begins.
    pub(crate) fn new(number: u16) -> Live
        ensures { result ≡ live_at_first number }
    {
        Live {
            number,
            up: up_size(number),
            down: down_size(number),
        }
    }

    /// Returns the move for a word: bytes go in either direction, or the stream ends.
    pub(crate) fn moved(self, word: u32) -> Moved
        ensures { result ≡ moved word self }
    {
        if self.goes_up(word) {
            return self.moved_up(portion(word, self.up));
        }
        if self.down > 0 {
            return self.moved_down(word, portion(word, self.down));
        }
        self.ended(word)
    }

    /// Returns whether bytes go to the device.
    fn goes_up(self, word: u32) -> bool
        ensures { result ≡ goes_up word self }
    {
        self.up > 0 && (self.down == 0 || !is_set(word, 4))
    }

    /// Returns the move of `count` bytes to the device.
    fn moved_up(self, count: u16) -> Moved
        ensures { result ≡ moved_up count self }
    {
        Moved {
            act: Act::Write {
                stream: self.number,
                from: up_size(self.number).saturating_sub(self.up),
                count,
            },
            after: Some(Live {
                up: self.up.saturating_sub(count),
                ..self
            }),
        }
    }

    /// Returns the move of `count` bytes to the client.
    fn moved_down(self, word: u32, count: u16) -> Moved
        ensures { result ≡ moved_down word count self }
    {
        let piece = if is_set(word, 5) {
            Piece::Head
        } else {
            Piece::Whole
        };
        Moved {
            act: Act::Answer {
                stream: self.number,
                from: down_size(self.number).saturating_sub(self.down),
                count,
                piece,
            },
            after: Some(Live {
                down: self.down.saturating_sub(count),
                ..self
            }),
        }
    }

    /// Returns the move by which one end closes the stream.
    fn ended(self, word: u32) -> Moved
        ensures { result ≡ ended word self }
    {
        let stream = self.number;
        let act = if is_set(word, 4) {
            Act::Close { stream }
        } else {
            Act::Leave { stream }
        };
        Moved { act, after: None }
    }
}

/// Returns how many bytes of a stream go to the device.
fn up_size(number: u16) -> u16
    ensures { result ≡ up_size number }
{
    8000 + 40 * (number % 100)
}

/// Returns how many bytes of a stream go to the client.
fn down_size(number: u16) -> u16
    ensures { result ≡ down_size number }
{
    10_000 + 20 * (number % 100)
}

/// Returns how many of the bytes that are left go at once.
fn portion(word: u32, left: u16) -> u16
    ensures { result ≡ portion word left }
{
    left.min(1 + ((word / 256) % 4096) as u16)
}

/// Returns whether a bit of a word is 1.
fn is_set(word: u32, bit: u32) -> bool
    requires { bit < 32 }
    ensures { result ≡ is_set word bit }
{
    (word >> bit) % 2 == 1
}
