//! Laws of the definition of replies, as functions that do nothing.

ghost use Rattle.std.specs.Prelude.{◌≡◌, ◌<◌, ◌^◌, ◌++◌, ℕ, List, Option, Some, length, take, drop};
ghost use Rattle.adb_forward.specs.declared.row.ForwardRow.{ForwardRow};
ghost use Rattle.adb_registry.specs.declared.row.Row.{Row};
ghost use Rattle.adb_request.specs.Requests.{hex_number};
ghost use Rattle.adb_request.specs.declared.request.Request.{Request};
ghost use Rattle.adb_reply.specs.Answer.{answer};
ghost use Rattle.adb_reply.specs.Laws.{BeginsRight};
ghost use Rattle.adb_reply.specs.Strings.{string};

use adb_request::spelled_is_read;

/// States that every reply begins with `OKAY`, or with `FAIL` if the client is closed then, and
/// that there is no reply when a service opens or a port is to be bound.
pub fn replies_begin_right()
    ensures { (rows : List (ℕ × Row)) (forwards : List (ℕ × ForwardRow)) (selected : Option ℕ)
        (request : Request) → BeginsRight (answer rows forwards selected request) }
{}

/// States that a text in a reply follows its own length.
pub fn texts_carry_their_length()
    ensures { (text more : List ℕ) → length text < 2 ^ 16
        → (hex_number (take 4 (string text ++ more)) ≡ Some (length text))
        × (take (length text) (drop 4 (string text ++ more)) ≡ text) }
{
    spelled_is_read();
}
