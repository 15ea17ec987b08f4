//! The commands of packets.

ghost use Rattle.std.specs.Prelude.{◌≡◌};
ghost use Rattle.adb_wire.specs.Command.{word_of, command_of};

/// The purpose of a packet (protocol.txt, "MESSAGES"). The obsolete SYNC is not supported.
#[derive(Clone, Copy, Debug, PartialEq, Eq, Drop)]
pub enum Command {
    Cnxn,
    Open,
    Okay,
    Wrte,
    Clse,
    Auth,
    Stls,
}

impl Command {
    /// Returns the word of the command: its four letters.
    pub(crate) fn word(self) -> u32
        ensures { result ≡ word_of self }
    {
        match self {
            Command::Cnxn => 0x4e58_4e43,
            Command::Open => 0x4e45_504f,
            Command::Okay => 0x5941_4b4f,
            Command::Wrte => 0x4554_5257,
            Command::Clse => 0x4553_4c43,
            Command::Auth => 0x4854_5541,
            Command::Stls => 0x534c_5453,
        }
    }

    /// Returns the command of a word, if there is one.
    pub(crate) fn from_word(word: u32) -> Option<Command>
        ensures { result ≡ command_of word }
    {
        match word {
            0x4e58_4e43 => Some(Command::Cnxn),
            0x4e45_504f => Some(Command::Open),
            0x5941_4b4f => Some(Command::Okay),
            0x4554_5257 => Some(Command::Wrte),
            0x4553_4c43 => Some(Command::Clse),
            0x4854_5541 => Some(Command::Auth),
            0x534c_5453 => Some(Command::Stls),
            _ => None,
        }
    }
}
