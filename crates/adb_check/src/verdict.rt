//! The verdicts of a judge, and the rules that an entry can break.

ghost use Rattle.std.specs.Prelude.{◌≡◌};
ghost use Rattle.adb_check.specs.Rules.{rule_text};

/// The verdict on the entries that a judge was given.
#[derive(Clone, Copy, Debug, PartialEq, Eq, Drop)]
pub enum Verdict {
    /// Each entry is legal after those before it.
    Legal,
    /// An entry is illegal: the first rule that the first illegal entry breaks.
    Illegal(Rule),
}

/// A rule that an illegal entry breaks. The rules are checked in this order.
#[derive(Clone, Copy, Debug, PartialEq, Eq, Drop)]
pub enum Rule {
    /// The entry comes from a client or a device after a kill.
    AfterKill,
    /// The entry draws a number other than the next one, or names a number that was never drawn.
    NotDrawn,
    /// The entry plugs in a device, and the maximum number of devices is plugged in.
    TooManyDevices,
    /// The entry plugs in a device with a serial that is not valid.
    BadSerial,
    /// The entry hands out no bytes, or bytes that are not the first due ones.
    NotDue,
}

impl Rule {
    /// Returns the text of the rule.
    pub fn text(self) -> &'static [u8]
        ensures { result.now ≡ rule_text self }
    {
        match self {
            Rule::AfterKill => b"after a kill",
            Rule::NotDrawn => b"number not drawn",
            Rule::TooManyDevices => b"too many devices",
            Rule::BadSerial => b"bad serial",
            Rule::NotDue => b"not due",
        }
    }
}
