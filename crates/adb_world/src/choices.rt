//! The choices that the words of a seed make.

ghost use Rattle.std.specs.Prelude.{◌<◌};

/// The bytes that can move: those that are due on the link, those that the device owes, those that
/// are due to a session, and those that a session has still to write.
#[derive(Clone, Copy)]
pub(crate) enum Side {
    Down,
    Up,
    Hand,
    Write,
}

/// The kind of bytes that is tried first in a turn, and the maximum that moves.
#[derive(Clone, Copy)]
pub(crate) struct Turn {
    pub first: Side,
    /// The sessions after this number come before the others.
    pub after: u32,
    /// The maximum number of bytes that move.
    pub most: usize,
}

/// Returns the choice of two words, if `given` sessions were given.
pub(crate) fn turn_of(side: u32, size: u32, given: u32) -> Turn
    ensures { 0 < result.most }
{
    Turn {
        first: side_of(side),
        after: number_below(side >> 2, given),
        most: piece_of(size),
    }
}

fn side_of(word: u32) -> Side {
    match word & 3 {
        0 => Side::Down,
        1 => Side::Up,
        2 => Side::Hand,
        _ => Side::Write,
    }
}

fn number_below(word: u32, given: u32) -> u32 {
    if given == 0 { 0 } else { word % given }
}

/// Returns a size: one byte, up to about a header, or up to a packet.
fn piece_of(word: u32) -> usize
    ensures { 0 < result }
{
    let rest = (word >> 2) as usize;
    match word & 3 {
        0 => 1,
        1 => 1 + rest % 48,
        2 => 1 + rest % 4_096,
        _ => 1 + rest % 65_536,
    }
}
