//! The service that runs one command for a stream.

ghost use Rattle.std.specs.Prelude.{◌≡◌, ◌≢◌, ◌≤◌, ◌++◌, [], List, ℕ, Option, None, Ok, Err, length, map, take, drop, true, false, IfOk, OnOk, OnErr, IsErr, is_none, is_some};
ghost use Rattle.std.specs.Io.{StartsWith};
ghost use Rattle.adb_outside.specs.Framing.{answer_of};
ghost use Rattle.adb_shell.specs.declared.packet.ShellFault.{ShellFault};
ghost use Rattle.adb_shell.specs.Packets.{error_of};
ghost use Rattle.adb_files.specs.Service.{TellsFront};
ghost use Rattle.adb_shell_service.specs.Commands.{words_of, files_left};
ghost use Rattle.adb_shell_service.specs.Service.{Opening, HasAnswered, IsReading, Answers, AnswersGiven, shell_answer};
ghost use Rattle.adb_shell_service.specs.Service.{input_answer, packet_answer, is_echo_of_input};

use crate::commands::outcome_of;
use crate::output::{CLOSE_STDIN, STDIN, STDOUT, add_exit, add_output, spelled};
use crate::program::Program;
use crate::words::words_of;
use adb_files::Files;
use adb_outside::{ByteQueue, Text};
use adb_shell::{ShellError, ShellPacket, ShellReader};
use std::alloc::{AllocError, Global};
use std::marker::Model;

/// The service `shell:` of a device, and `shell,v2:`, which sends and takes packets of the shell
/// protocol (SERVICES.TXT). The command is run when the service is opened. Contracts see the input
/// that its reader holds while it still reads input, the answer that was not taken yet, and whether
/// it is spent by an allocation failure.
#[derive(Drop)]
pub struct ShellService {
    alloc: Global,
    input: Option<ShellReader>,
    out: ByteQueue,
    spent: bool,
}

impl Model for ShellService {
    ghost use Rattle.adb_shell_service.specs.Service.{Held};

    ghost Value = { Held };

    ghost view = { λ s. record { input = s.input; out = s.out.bytes; spent = s.spent } };
}

impl ShellService {
    /// Runs a command over the files: `rm` removes its file now. If its streams consist of packets,
    /// a `cat` without a path writes its input back, up to the end of the input; every other
    /// command has ended. If an allocation fails, the files are unchanged.
    pub fn open(
        alloc: Global,
        files: &mut Files,
        packets: bool,
        command: &[u8],
    ) -> Result<ShellService, AllocError>
        ensures service { IfOk result (λ service. HasAnswered
            (record { packets = packets; command = command.now; files = files.old }) [] [] service) }
        ensures spent { IfOk result (λ service. service.spent ≡ false) }
        ensures files { OnOk result (files.new ≡ files_left files.old (words_of command.now)) }
        ensures err { OnErr result (files.new ≡ files.old) }
    {
        let words = words_of(alloc, command)?;
        if packets && is_echo_of_input(words.as_slice()) {
            return Ok(ShellService {
                alloc,
                input: Some(ShellReader::new(alloc)),
                out: ByteQueue::new(alloc),
                spent: false,
            });
        }
        let outcome = outcome_of(alloc, files, words.as_slice())?;
        let out = ByteQueue::from_text(spelled(alloc, packets, &outcome)?);
        change(files, words.as_slice());
        Ok(ShellService {
            alloc,
            input: None,
            out,
            spent: false,
        })
    }

    /// Takes the next piece of the stream, of any length. A service that has ended drops it. If an
    /// allocation fails, a prefix of the answer was given, the service has ended only if it had
    /// before, and it is spent: every later call returns the error and changes nothing.
    pub fn feed(&mut self, piece: &[u8]) -> Result<(), AllocError>
        ensures ok { OnOk result ((self.old.spent ≡ false) × (self.new.spent ≡ false)) }
        ensures whole { OnOk result ((opening : Opening) (fed taken : List ℕ)
            → HasAnswered opening fed taken self.old
            → HasAnswered opening (fed ++ piece.now) taken self.new) }
        ensures err { OnErr result (self.new.spent ≡ true) }
        ensures ended { OnErr result (is_none self.new.input ≡ is_none self.old.input) }
        ensures front { OnErr result ((opening : Opening) (fed taken : List ℕ)
            → HasAnswered opening fed taken self.old
            → StartsWith (shell_answer opening (fed ++ piece.now)).bytes (taken ++ self.new.out)) }
        ensures stays { self.old.spent ≡ true → (IsErr result) × (self.new ≡ self.old) }
    {
        if self.spent {
            return Err(AllocError);
        }
        let Some(reader) = &mut self.input else {
            return Ok(());
        };
        match answer_piece(self.alloc, reader, &mut self.out, piece) {
            Ok(false) => Ok(()),
            Ok(true) => {
                self.input = None;
                Ok(())
            }
            Err(error) => {
                self.spent = true;
                Err(error)
            }
        }
    }

    /// Returns the answer that was not taken yet.
    pub fn out(&self) -> &[u8]
        ensures { result.now ≡ self.now.out }
    {
        self.out.as_slice()
    }

    /// Removes the first `n` bytes of the answer, which were taken. Needs no memory.
    pub fn taken(&mut self, n: usize)
        requires { n ≤ length self.old.out }
        ensures left { self.new ≡ record self.old { out = drop n self.old.out } }
        ensures whole { (opening : Opening) (fed gone : List ℕ)
            → HasAnswered opening fed gone self.old
            → HasAnswered opening fed (gone ++ take n self.old.out) self.new }
    {
        self.out.take(n);
        self.out.give_back();
    }

    /// Returns whether the service has ended, so that nothing is added to its answer.
    pub fn ended(&self) -> bool
        ensures { result ≡ is_none self.now.input }
    {
        self.input.is_none()
    }
}

/// Returns whether a command writes its input back: `cat` with no other word.
fn is_echo_of_input(words: &[&[u8]]) -> bool
    ensures { result ≡ is_echo_of_input (map (λ word. word.now) words.now) }
{
    match words {
        [word] => *word == b"cat".as_slice(),
        _ => false,
    }
}

/// Removes the file that an `rm` names, if it exists.
fn change(files: &mut Files, words: &[&[u8]])
    ensures { files.new ≡ files_left files.old (map (λ word. word.now) words.now) }
{
    if let [word, path] = words {
        if matches!(Program::of(word), Some(Program::Remove)) {
            let _ = files.remove(path);
        }
    }
}

/// Takes a piece of the input and answers the packets that it completes. Returns whether the
/// service has ended. If an allocation fails, a prefix of the answer was given.
fn answer_piece(
    alloc: Global,
    reader: &mut ShellReader,
    out: &mut ByteQueue,
    piece: &[u8],
) -> Result<bool, AllocError>
    ensures whole { IfOk result (λ ended. (opening : Opening) (fed taken : List ℕ)
        → IsReading opening fed reader.old
        → taken ++ out.old.bytes ≡ (shell_answer opening fed).bytes
        → Answers opening (fed ++ piece.now) taken reader.new out.new.bytes ended) }
    ensures front { OnErr result ((opening : Opening) (fed taken : List ℕ)
        → IsReading opening fed reader.old
        → taken ++ out.old.bytes ≡ (shell_answer opening fed).bytes
        → StartsWith (shell_answer opening (fed ++ piece.now)).bytes (taken ++ out.new.bytes)) }
{
    let faulty = is_faulty(reader.feed(piece))?;
    let closed = answer_given(alloc, reader, out)?;
    Ok(closed || faulty)
}

/// Returns whether a reader reported a fault. An allocation failure is passed on as an error.
fn is_faulty(answer: Result<(), ShellError>) -> Result<bool, AllocError>
    ensures ok { IfOk result (λ faulty. (answer ≢ Err ShellError.OutOfMemory)
        × ((fault : Option ShellFault) → answer ≡ answer_of error_of fault
        → faulty ≡ is_some fault)) }
    ensures err { OnErr result (answer ≡ Err ShellError.OutOfMemory) }
{
    match answer {
        Ok(()) => Ok(false),
        Err(ShellError::OutOfMemory) => Err(AllocError),
        Err(ShellError::BadId { .. } | ShellError::TooLong { .. }) => Ok(true),
    }
}

/// Answers the packets that a reader returns, up to the end of the input. Returns whether that end
/// came. If an allocation fails, a prefix of the answer was given.
fn answer_given(
    alloc: Global,
    reader: &mut ShellReader,
    out: &mut ByteQueue,
) -> Result<bool, AllocError>
    ensures ok { IfOk result (λ closed. AnswersGiven reader.old reader.new
        out.old.bytes out.new.bytes closed) }
    ensures err { OnErr result
        (TellsFront (input_answer reader.old.given None).bytes out.old.bytes out.new.bytes) }
{
    while let Some(packet) = reader.next() {
        out.push(packet_answer(alloc, &packet)?.as_slice())?;
        if packet.id == CLOSE_STDIN {
            return Ok(true);
        }
    }
    Ok(false)
}

/// Returns the answer to a packet of input.
fn packet_answer(alloc: Global, packet: &ShellPacket) -> Result<Text, AllocError>
    ensures { IfOk result (λ bytes. bytes ≡ (packet_answer packet.now).bytes) }
{
    let mut bytes = Text::new(alloc);
    if packet.id == CLOSE_STDIN {
        add_exit(alloc, 0, &mut bytes)?;
    } else if packet.id == STDIN {
        add_output(alloc, STDOUT, packet.bytes.as_slice(), &mut bytes)?;
    }
    Ok(bytes)
}
