//! Laws of all answer bytes. Each function does nothing: its contract is the law.

ghost use Rattle.std.specs.Prelude.{◌≡◌, ◌≢◌, ◌<◌, ◌+◌, ◌^◌, ◌++◌, List, ℕ, length, take};
ghost use Rattle.adb_sync_client.specs.declared.kind.AnswerKind.{AnswerKind};
ghost use Rattle.adb_sync_client.specs.declared.request.TheConstants.{MAX_ASKED_PATH};
ghost use Rattle.adb_sync_client.specs.declared.step.Step.TheVariants.{BadAnswer, Done, More};
ghost use Rattle.adb_sync.specs.declared.answer.SyncAnswer.{SyncAnswer};
ghost use Rattle.adb_sync.specs.Answers.{answer_bytes};
ghost use Rattle.adb_sync.specs.Chunk.{chunk_bytes};
ghost use Rattle.adb_sync_client.specs.Values.{answer_value, pull_value, CanEnd};

/// States that the meaning of answer bytes, unless it is that more are needed, is not changed by
/// the bytes that follow.
#[tactic(auto, using(crate::proofs::Lasting::value_stays))]
pub fn ended_answers_stay()
    ensures { (kind : AnswerKind) (bytes more : List ℕ) → answer_value kind bytes ≢ More
        → answer_value kind (bytes ++ more) ≡ answer_value kind bytes }
{}

/// States that a bad answer is reported at its first byte after which no answer of the kind can
/// follow: the bytes before it may be the beginning of an answer, and with it they are not,
/// whatever follows.
pub fn first_bad_byte_is_told()
    ensures { (kind : AnswerKind) (bytes : List ℕ) (offset : ℕ) → length bytes < 2 ^ 64
        → answer_value kind bytes ≡ BadAnswer offset
        → (offset < length bytes) × (answer_value kind (take offset bytes) ≡ More)
        × (answer_value kind (take (offset + 1) bytes) ≡ BadAnswer offset) }
{}

/// States that answer bytes after which more are needed can always be completed: followed by some
/// bytes they are a whole answer of their kind, or a FAIL.
#[tactic(auto, using(crate::proofs::Completing::open_can_end))]
pub fn open_answers_can_end()
    ensures { (kind : AnswerKind) (bytes : List ℕ) → answer_value kind bytes ≡ More
        → CanEnd kind bytes }
{}

/// States that the bytes of a file that a service writes in chunks, with their end, are those that
/// a pull reads.
#[tactic(auto, using(crate::proofs::Written::file_is_pulled))]
pub fn written_files_are_pulled()
    ensures { (bytes : List ℕ)
        → pull_value (chunk_bytes bytes ++ answer_bytes SyncAnswer.ChunkEnd) ≡ Done bytes }
{}

/// States the maximum length of a path in a request.
pub fn limits_are()
    ensures path { MAX_ASKED_PATH ≡ 1000 }
{}
