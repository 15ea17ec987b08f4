//! Laws of payloads.

ghost use Rattle.std.specs.Prelude.{ℕ, ◌≡◌, ◌++◌, ◌∷◌, [], true, List};
ghost use Rattle.adb_files.specs.Entries.{Entry};
ghost use Rattle.adb_device_streams.specs.Asked.{Kind};
ghost use Rattle.adb_device_streams.specs.Service.{Came, came_over, service_answer};
ghost use Rattle.adb_laws_alone.specs.Payloads.{AreEnough, AreOne, ComeInTurn};

/// States that payloads that each come over the files that those before them left are answered like
/// one payload of all their bytes, and leave the files that this payload leaves.
pub fn payloads_in_turn_are_one()
    ensures { (kind : Kind) (first opened : List Entry) (past : List Came)
        → ComeInTurn kind opened past → AreOne kind first opened past }
{}

/// States that payloads after the end of a service change neither its answer nor the files.
pub fn an_ended_service_takes_no_more()
    ensures { (kind : Kind) (first opened : List Entry) (bytes more : List ℕ)
        → (service_answer kind first (came_over bytes opened ∷ [])).ended ≡ true
        → AreEnough kind first opened bytes (bytes ++ more) }
{}
