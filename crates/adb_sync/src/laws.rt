//! Laws of all bytes, requests and answers, whichever program reads or writes them.

ghost use Rattle.std.specs.Prelude.{◌≡◌, ◌<◌, ◌^◌, ◌++◌, ◌∷◌, [], List, ℕ, Bool, true, Some};
ghost use Rattle.adb_outside.specs.Framing.{joined};
ghost use Rattle.adb_sync.specs.declared.layout.TheConstants.{WORD_BYTES, MAX_PATH, MAX_CHUNK};
ghost use Rattle.adb_sync.specs.declared.writers.TheConstants.{WHOLE_CHUNK};
ghost use Rattle.adb_sync.specs.declared.ask.SyncAsk.{SyncAsk};
ghost use Rattle.adb_sync.specs.declared.answer.SyncAnswer.{SyncAnswer};
ghost use Rattle.adb_sync.specs.declared.error.SyncFault.{SyncFault};
ghost use Rattle.adb_sync.specs.declared.ask_format.AskFormat.{AskFormat};
ghost use Rattle.adb_sync.specs.declared.answer_format.AnswerFormat.{AnswerFormat};
ghost use Rattle.adb_outside.specs.Bytes.{AreBytes};
ghost use Rattle.adb_sync.specs.Asks.{IsAsk, HasAskWords, IsAskCut, AskReading, asks_from, past_ask};
ghost use Rattle.adb_sync.specs.Asks.{id_of_ask, is_in_place, ask_bytes, asks_in, ask_fault_in};
ghost use Rattle.adb_sync.specs.Answers.{IsAnswer, HasAnswerWords, EndsKind, IsAnswerCut, AnswerReading};
ghost use Rattle.adb_sync.specs.Answers.{answer_bytes, answers_from, past_answer, answers_in, answer_fault_in};

/// States that a request that was written at an allowed place is read again, whatever follows it.
pub fn written_asks_are_read()
    ensures { (from : AskFormat) (ask : SyncAsk) (more : List ℕ) → IsAsk ask → HasAskWords ask
        → is_in_place from.sending (id_of_ask ask) ≡ true
        → asks_from from (ask_bytes ask ++ more)
        ≡ joined (ask ∷ []) (asks_from (past_ask from (ask_bytes ask)) more) }
{}

/// States that an answer that was written is read again, whatever follows it.
pub fn written_answers_are_read()
    ensures { (from : AnswerFormat) (answer : SyncAnswer) (more : List ℕ)
        → IsAnswer answer → HasAnswerWords answer → EndsKind from.list answer
        → answers_from from (answer_bytes answer ++ more)
        ≡ joined (answer ∷ []) (answers_from (past_answer from (answer_bytes answer)) more) }
{}

/// States that the requests read from bytes are encoded there one after another, each at an allowed
/// place, up to the first place with no whole request; if there is a fault at that place, it is the
/// fault.
pub fn ask_cut_is_right()
    ensures { (from : AskFormat) (bytes : List ℕ) → from.offset < 2 ^ 64 → AreBytes bytes
        → IsAskCut from bytes (asks_from from bytes) }
{}

/// States that the answers read from bytes are encoded there one after another, except that the
/// numbers of OKAY and DONE may be any, up to the first place with no whole answer; if there is a
/// fault at that place, it is the fault.
pub fn answer_cut_is_right()
    ensures { (from : AnswerFormat) (bytes : List ℕ) → from.offset < 2 ^ 64 → AreBytes bytes
        → IsAnswerCut from bytes (answers_from from bytes) }
{}

/// States that bytes are cut into requests in one way: any requests with a rest, and a fault if
/// there is one, that meet the definition are those that are read.
pub fn ask_cut_is_determined()
    ensures { (from : AskFormat) (bytes : List ℕ) (cut : AskReading)
        → from.offset < 2 ^ 64 → IsAskCut from bytes cut → cut ≡ asks_from from bytes }
{}

/// States that bytes are cut into answers in one way too.
pub fn answer_cut_is_determined()
    ensures { (from : AnswerFormat) (bytes : List ℕ) (cut : AnswerReading)
        → from.offset < 2 ^ 64 → IsAnswerCut from bytes cut → cut ≡ answers_from from bytes }
{}

/// States that the bytes after the first fault of requests change neither the fault nor the
/// requests before it.
pub fn ask_faults_stay()
    ensures { (bytes more : List ℕ) (fault : SyncFault) → ask_fault_in bytes ≡ Some fault
        → (ask_fault_in (bytes ++ more) ≡ Some fault)
        × (asks_in (bytes ++ more) ≡ asks_in bytes) }
{}

/// States that the bytes after the first fault of answers change neither the fault nor the answers
/// before it.
pub fn answer_faults_stay()
    ensures { (list : Bool) (bytes more : List ℕ) (fault : SyncFault)
        → answer_fault_in list bytes ≡ Some fault
        → (answer_fault_in list (bytes ++ more) ≡ Some fault)
        × (answers_in list (bytes ++ more) ≡ answers_in list bytes) }
{}

/// States the numbers that the definitions take from the code.
pub fn limits_are()
    ensures word { WORD_BYTES ≡ 4 }
    ensures path { MAX_PATH ≡ 1024 }
    ensures chunk { MAX_CHUNK ≡ 65536 }
    ensures whole { WHOLE_CHUNK ≡ 65544 }
{}
