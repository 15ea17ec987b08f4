//! The rule of a pipe's channel: the items that were put are those that were taken, followed by
//! those that the channel holds.

use adb_outside::Text;
use crossbeam_channel::protocol::{Join, Lesson, Outcome, Protocol, Split};
use std::collections::LinkedList;

/// An item of the channel: a chunk, or the end mark after the last chunk.
#[derive(Drop)]
pub enum Item {
    Chunk(Text),
    End,
}

/// The items that passed an end of a pipe: the chunks, and whether the end mark followed them.
pub struct Passed {
    pub chunks: LinkedList<Text>,
    pub ended: bool,
}

/// The view of an end of a pipe. It is used in proofs only; no value of it is made.
pub enum View {
    /// Both ends, before they are split. Nothing was put.
    Uncut,
    /// The output end, and the items that it put.
    Putter(Passed),
    /// The input end, and the items that it took.
    Taker(Passed),
    /// Both ends, joined again in one thread.
    Both(Compared),
    /// An end that was joined to the other.
    Spent,
}

/// The items that were put, and those that were taken.
pub struct Compared {
    pub put: Passed,
    pub taken: Passed,
}

/// The rule of a pipe. The channel keeps it at each step of each thread: a chunk or the end mark is
/// put, or one of them is taken.
pub struct InOrder;

impl Protocol<Item, View> for InOrder {
    ghost use Rattle.adb_pipe.specs.Rule.{IsInOrder};
    ghost use Rattle.adb_pipe.specs.declared.rule.View.TheVariants.{Uncut};

    ghost holds = { IsInOrder };

    ghost first = { Uncut };
}

/// Splits the first view into those of the two ends.
pub struct Cut;

impl Split<View> for Cut {
    ghost use Rattle.adb_pipe.specs.Rule.{nothing};
    ghost use Rattle.adb_pipe.specs.declared.rule.View.TheVariants.{Putter, Taker};

    ghost left = { λ v. Putter nothing };

    ghost right = { λ v. Taker nothing };
}

/// The effect of a step on the view of its thread: one more item passed its end, and no end mark
/// before it.
pub struct Moves;

impl Outcome<Item, View> for Moves {
    ghost use Rattle.std.specs.Prelude.{◌≡◌};
    ghost use Rattle.adb_pipe.specs.Rule.{IsOpen, moved};

    ghost then = { λ v item w. IsOpen v × (w ≡ moved v item) };
}

impl Lesson<Item, View> for Moves {
    ghost fact = { λ v items. Unit {0} };
}

/// Joins the views of the two ends.
pub struct Whole;

impl Join<View> for Whole {
    ghost use Rattle.adb_pipe.specs.Rule.{compared};
    ghost use Rattle.adb_pipe.specs.declared.rule.View.TheVariants.{Spent};

    ghost both = { compared };

    ghost spent = { Spent };
}

/// The fact that both ends together give: the items that were put are those that were taken,
/// followed by those that the channel holds.
pub struct Kept;

impl Lesson<Item, View> for Kept {
    ghost use Rattle.adb_pipe.specs.Rule.{AreInOrder};

    ghost fact = { AreInOrder };
}
