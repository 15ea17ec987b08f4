//! Laws of sessions.

ghost use Rattle.std.specs.Prelude.{ℕ, List, []};
ghost use Rattle.adb_outside.specs.Bytes.{IsPrefixOf};
ghost use Rattle.adb_history.specs.Asking.{nothing_asked, asks_with};
ghost use Rattle.adb_history.specs.Machine.{History, IsLegal};
ghost use Rattle.adb_laws_answers.specs.Words.{IsKnown, words_of};
ghost use Rattle.adb_laws_answers.specs.Model.{model_devices};
ghost use Rattle.adb_laws_answers.specs.Asked.{Opens};
ghost use Rattle.adb_laws_answers.specs.Sessions.{AsksForServices, IsOfSessions};

use adb_request::spelled_is_read;

/// States that a prefix of the bytes that a session writes asks for nothing but the device, as long
/// as its requests are not whole, and then for its service.
pub fn requests_open_their_service()
    ensures { (service text front : List ℕ) → IsKnown service
        → IsPrefixOf front (words_of service text)
        → Opens service front (asks_with model_devices [] front nothing_asked) }
{
    spelled_is_read();
}

/// States that in every legal history of sessions no kill was requested and there is no forward;
/// each client asked for the same as a prefix of its bytes, which is all of them until it asked for
/// a service, and one that ended asked for its service; and as many streams were born as clients
/// asked for one.
pub fn sessions_ask_for_services()
    ensures { (history : History) → IsLegal history → IsOfSessions history
        → AsksForServices history }
{
    spelled_is_read();
}
