//! Errors of a desk.

use adb_hub::HubError;

/// The reason why a call of a desk makes no entry.
#[derive(Clone, Copy, Debug, PartialEq, Eq, Drop)]
pub enum DeskError {
    /// The hub refused the entry, or an allocation failed. If the allocation of the recorder
    /// failed, the desk is shut with this answer; otherwise the desk is unchanged.
    Hub(HubError),
    /// The bytes do not fit: more would be held of the client than its limit. The desk is
    /// unchanged.
    Later,
    /// The desk was halted, or one of its counts is full. The desk is shut.
    Halted,
    /// The recorder failed. The desk is shut.
    RecordFault,
}
