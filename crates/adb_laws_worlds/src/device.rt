//! Laws of a model device after any packets of its host.

ghost use Rattle.std.specs.Prelude.{◌≡◌, false};
ghost use Rattle.adb_daemon.specs.Device.{Setting};
ghost use Rattle.adb_laws_worlds.specs.Asked.{AllWereAsked};
ghost use Rattle.adb_laws_worlds.specs.InTurn.{WritesAsAllowed};
ghost use Rattle.adb_laws_worlds.specs.Opening.{RepliesToOpens};

/// States that each id that a device drew was drawn by an OPEN of its host, and belongs to it, as
/// `opens_are_answered` says. Its stream counted that OPEN as an OKAY, and none of the OKAYs of
/// both ids that came after it twice; while its row lives, it took them all.
pub fn ids_were_asked_for()
    ensures { (setting : Setting) → AllWereAsked setting }
{}

/// States that the first OPEN of an id that is not 0 is replied to, whatever follows: by an OKAY
/// from an id of the device or, if the service is not known, by a CLSE from 0.
pub fn opens_are_replied_to()
    ensures { (setting : Setting) → RepliesToOpens setting }
{}

/// States that to an id of its host that asked for a stream once at most, a device without credit
/// in bytes makes one write, and one more for each OKAY of that id.
pub fn writes_are_allowed()
    ensures { (setting : Setting) → setting.credit ≡ false → WritesAsAllowed setting }
{}
