//! The requests and answers of a device's file sync service, as SYNC.TXT defines them. `write_ask`
//! and `write_answer` encode them; an `AskReader` or an `AnswerReader` is fed a stream in any
//! pieces and returns them.
#![tactic(auto)]

mod answer;
mod answer_bodies;
mod answer_format;
mod answer_id;
mod answer_reader;
mod ask;
mod ask_format;
mod ask_id;
mod ask_reader;
mod chunk;
mod comma;
mod error;
mod laws;
mod layout;
mod writers;

pub use answer::{Dirent, SyncAnswer};
pub use answer_format::AnswerFormat;
pub use answer_reader::AnswerReader;
pub use ask::SyncAsk;
pub use ask_reader::AskReader;
pub use chunk::Chunk;
pub use error::{SyncError, SyncFault, SyncRule};
pub use laws::{
    answer_cut_is_determined, answer_cut_is_right, answer_faults_stay, ask_cut_is_determined,
    ask_cut_is_right, ask_faults_stay, limits_are, written_answers_are_read, written_asks_are_read,
};
pub use layout::MAX_CHUNK;
pub use writers::{WHOLE_CHUNK, write_answer, write_ask};
