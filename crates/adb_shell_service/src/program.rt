//! The programs of the shell, by their first words.

ghost use Rattle.std.specs.Prelude.{◌≡◌};
ghost use Rattle.adb_shell_service.specs.Commands.{program_of};

/// The program of a command.
#[derive(Clone, Copy, Drop)]
pub enum Program {
    Echo,
    Cat,
    List,
    Remove,
    Exit,
}

impl Program {
    /// Returns the program that a command's first word names, if it names one.
    pub fn of(word: &[u8]) -> Option<Program>
        ensures { result ≡ program_of word.now }
    {
        if word == b"echo".as_slice() {
            Some(Program::Echo)
        } else if word == b"cat".as_slice() {
            Some(Program::Cat)
        } else if word == b"ls".as_slice() {
            Some(Program::List)
        } else if word == b"rm".as_slice() {
            Some(Program::Remove)
        } else if word == b"exit".as_slice() {
            Some(Program::Exit)
        } else {
            None
        }
    }
}
