//! The decision of a writer after a turn.

/// The decision of a writer after a turn.
#[derive(Clone, Copy, Debug, PartialEq, Eq, Drop)]
pub(crate) enum Next {
    /// The writer continues: more bytes may be due.
    More,
    /// The writer stops for now: nothing is due.
    Idle,
    /// The writer stops for good: nothing will be written any more.
    Stop,
}
