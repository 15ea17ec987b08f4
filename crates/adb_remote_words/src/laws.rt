//! Properties of all answers.

ghost use Rattle.std.specs.Prelude.{◌≡◌, ◌++◌, Bool, false, List, ℕ, Some, Result};
ghost use Rattle.adb_remote_words.specs.declared.reading.TheConstants.{MAX_ANSWER};
ghost use Rattle.adb_remote_words.specs.declared.remote.Outcome.{Outcome};
ghost use Rattle.adb_remote_words.specs.declared.remote.Remote.{Remote};
ghost use Rattle.adb_remote_words.specs.declared.remote.RemoteError.{RemoteError};
ghost use Rattle.adb_remote_words.specs.declared.words.TheConstants.{FILE_MODE, MAX_WORD};
ghost use Rattle.adb_remote_words.specs.Outcome.{outcome_of};

use adb_sync_client::ended_answers_stay;

/// States that a decided answer is final: if a prefix of an answer decides it, neither further
/// bytes nor the end of the answer change the outcome.
pub fn decided_answers_stay()
    ensures { (job : Remote) (front more : List ℕ) (ended : Bool)
        (outcome : Result Outcome RemoteError) → outcome_of job front false ≡ Some outcome
        → outcome_of job (front ++ more) ended ≡ Some outcome }
{
    ended_answers_stay();
}

/// States the maximum lengths of an answer and of a word, and the mode of a file that is pushed.
pub fn limits_are()
    ensures answer { MAX_ANSWER ≡ 536870912 }
    ensures word { MAX_WORD ≡ 1000 }
    ensures mode { FILE_MODE ≡ 33188 }
{}
