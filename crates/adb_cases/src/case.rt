//! The cases, each of which is tried by itself.

use crate::{
    client, copying, failing, files, forward, frames, input, link, load, recorders, records,
    sessions, touched,
};
use std::alloc::{AllocError, Global};
use std::sync::Wait;

#[derive(Clone, Copy, Debug, Drop)]
pub enum Case {
    RecordsAreSpelled,
    AllIsRecorded,
    NothingFollowsATornRecord,
    BytesAreTakenBack,
    TwoMemoriesAreCutOffAsTheyAre,
    PiecesBehindASliceLieInOneMemory,
    ALargeSliceGoesOutAlone,
    ALargePacketGoesOutAlone,
    ASplitPayloadGoesOutBySlices,
    ForwardsAreRefused,
    EachIsNamedOnce,
    LoadsOfASeed,
    TreesAreRefused,
    FrontsAreFound,
    InputIsRead,
    FaultsAreTold,
    FilesAreFilled,
    SessionsSideBySide,
}

pub const CASES: &[Case] = &[
    Case::RecordsAreSpelled,
    Case::AllIsRecorded,
    Case::NothingFollowsATornRecord,
    Case::BytesAreTakenBack,
    Case::TwoMemoriesAreCutOffAsTheyAre,
    Case::PiecesBehindASliceLieInOneMemory,
    Case::ALargeSliceGoesOutAlone,
    Case::ALargePacketGoesOutAlone,
    Case::ASplitPayloadGoesOutBySlices,
    Case::ForwardsAreRefused,
    Case::EachIsNamedOnce,
    Case::LoadsOfASeed,
    Case::TreesAreRefused,
    Case::FrontsAreFound,
    Case::InputIsRead,
    Case::FaultsAreTold,
    Case::FilesAreFilled,
    Case::SessionsSideBySide,
];

/// Returns the row that does not hold, for a case with one row.
fn fault_of(holds: bool) -> Option<usize> {
    if holds { None } else { Some(0) }
}

impl Case {
    /// Returns the index of the first of its rows, from 0, that does not hold, or `None` if all
    /// hold.
    pub fn first_fault<W: Wait + Copy + Drop>(
        self,
        rt: W,
        alloc: Global,
    ) -> Result<Option<usize>, AllocError> {
        Ok(match self {
            Case::RecordsAreSpelled => records::first_fault(alloc)?,
            Case::AllIsRecorded => fault_of(recorders::all_is_recorded(alloc)),
            Case::NothingFollowsATornRecord => {
                fault_of(recorders::nothing_follows_a_torn_record(alloc)?)
            }
            Case::BytesAreTakenBack => fault_of(client::bytes_are_taken_back(alloc)?),
            Case::TwoMemoriesAreCutOffAsTheyAre => {
                fault_of(client::two_memories_are_cut_off_as_they_are(alloc)?)
            }
            Case::PiecesBehindASliceLieInOneMemory => {
                fault_of(client::pieces_behind_a_slice_lie_in_one_memory(alloc)?)
            }
            Case::ALargeSliceGoesOutAlone => {
                fault_of(client::a_large_slice_goes_out_alone(alloc)?)
            }
            Case::ALargePacketGoesOutAlone => {
                fault_of(link::a_large_packet_goes_out_alone(alloc)?)
            }
            Case::ASplitPayloadGoesOutBySlices => {
                fault_of(link::a_split_payload_goes_out_by_slices(alloc)?)
            }
            Case::ForwardsAreRefused => fault_of(forward::forwards_are_refused(alloc)),
            Case::EachIsNamedOnce => touched::each_is_named_once(alloc)?,
            Case::LoadsOfASeed => load::loads_of_a_seed(alloc)?,
            Case::TreesAreRefused => copying::first_fault(alloc)?,
            Case::FrontsAreFound => frames::first_fault(),
            Case::InputIsRead => input::first_fault(alloc)?,
            Case::FaultsAreTold => failing::first_fault(rt, alloc)?,
            Case::FilesAreFilled => fault_of(files::files_are_filled(alloc)),
            Case::SessionsSideBySide => sessions::first_fault(alloc)?,
        })
    }
}
