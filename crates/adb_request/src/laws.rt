//! Laws of the definitions of requests, as functions that do nothing. They state for each row of
//! the table of requests that its texts are read by that row and by no other.

ghost use Rattle.std.specs.Prelude.{◌≡◌, ◌<◌, ◌++◌, ◌∷◌, ℕ, List, Some, true, false, codes, ◌==◌};
ghost use Rattle.std.specs.List.{AllByRecursion, list_any};
ghost use Rattle.adb_outside.specs.declared.kinds.Selector.TheVariants.{Serial, Id};
ghost use Rattle.adb_request.specs.Requests.{hex_digits, hex_number};
ghost use Rattle.adb_request.specs.Forms.{form, local_in, is_remote, semicolon};
ghost use Rattle.adb_request.specs.Meaning.{meaning, id_in, colon};
ghost use Rattle.adb_request.specs.Rows.{fixed_rows};
ghost use Rattle.adb_request.specs.declared.request.Which.{Which};
ghost use Rattle.adb_request.specs.declared.request.Which.TheVariants.{By};
ghost use Rattle.adb_request.specs.declared.request.Request.{Request};
ghost use Rattle.adb_request.specs.declared.request.Request.TheVariants.{Transport, Forward, KillForward};

/// States that an encoded length is parsed again.
pub fn spelled_is_read()
    ensures { (n : ℕ) → n < 65536 → hex_number (hex_digits n) ≡ Some n }
{}

/// States that each text that is a row of its own is read as that row.
#[tactic(auto, unfolding(crate::specs::Meaning::meaning))]
pub fn fixed_texts_are_read()
    ensures { AllByRecursion (λ row. meaning row.0 ≡ row.1) fixed_rows }
{}

/// States that a transport by serial or by id is read, whatever the serial.
#[tactic(auto, unfolding(crate::specs::Meaning::meaning))]
pub fn transports_are_read()
    ensures serial { (serial : List ℕ)
        → meaning (codes "host:transport:" ++ serial) ≡ Transport (Serial serial) false }
    ensures told_serial { (serial : List ℕ)
        → meaning (codes "host:tport:serial:" ++ serial) ≡ Transport (Serial serial) true }
    ensures id { (digits : List ℕ) (id : ℕ) → id_in digits ≡ Some id
        → meaning (codes "host:transport-id:" ++ digits) ≡ Transport (Id id) false }
{}

/// States that a form is read after the prefix of a serial without a colon, and after that of an
/// id.
pub fn forms_are_read()
    ensures serial { (serial text : List ℕ) (request : Request)
        → list_any (λ byte. byte == colon) serial ≡ false
        → form (By (Serial serial)) text ≡ Some request
        → meaning (codes "host-serial:" ++ (serial ++ colon ∷ text)) ≡ request }
    ensures id { (digits text : List ℕ) (id : ℕ) (request : Request) → id_in digits ≡ Some id
        → form (By (Id id)) text ≡ Some request
        → meaning (codes "host-transport-id:" ++ (digits ++ colon ∷ text)) ≡ request }
{}

/// States that a forward between two ends is read, and so is the request to end it.
pub fn forwards_are_read()
    ensures forward { (on : Which) (digits remote : List ℕ) (port : ℕ)
        → local_in (codes "tcp:" ++ digits) ≡ Some port → is_remote remote ≡ true
        → form on (codes "forward:tcp:" ++ (digits ++ semicolon ∷ remote))
        ≡ Some (Forward on false port remote) }
    ensures norebind { (on : Which) (digits remote : List ℕ) (port : ℕ)
        → local_in (codes "tcp:" ++ digits) ≡ Some port → is_remote remote ≡ true
        → form on (codes "forward:norebind:tcp:" ++ (digits ++ semicolon ∷ remote))
        ≡ Some (Forward on true port remote) }
    ensures end { (on : Which) (local : List ℕ) (port : ℕ) → local_in local ≡ Some port
        → 0 < port → form on (codes "killforward:" ++ local) ≡ Some (KillForward port) }
{}
