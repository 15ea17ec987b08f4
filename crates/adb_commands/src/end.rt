//! The end of a command that neither serves nor dials.

use crate::load_stop::LoadStop;
use crate::script_stop::ScriptStop;
use adb_check::Judgement;
use adb_replay::Stop;
use adb_words::WordsError;

/// The end of a command that neither serves nor dials, by the command that the words name.
#[derive(Clone, Copy, Drop)]
pub enum CommandEnd {
    /// No command was run: the words are no command, or an allocation for them failed. The source
    /// was not read, and the sink was not written.
    NotRun(WordsError),
    /// `replay`: the history of the capture was written, or the reason why the replay stopped.
    Replayed(Result<(), Stop>),
    /// `check`: the judgement, after its line was written, or the reason why the command stopped.
    Judged(Result<Judgement, Stop>),
    /// `gen`: the lines of the load were written, or the reason why the command stopped.
    Generated(Result<(), LoadStop>),
    /// `local` and `copy`: the answer lines were written, or the reason why the command stopped.
    Answered(Result<(), ScriptStop>),
}
