//! Parsing of the words of `serve`.

ghost use Rattle.std.specs.Prelude.{◌≡◌, ◌⊎◌, Err, Some, None, IfOk, codes, ok_or, option_map};
ghost use Rattle.std.specs.Prelude.{true};
ghost use Rattle.clap.specs.Words.{app_of, found_of, with_rule};
ghost use Rattle.adb_words.specs.Words.{number_within, texts};
ghost use Rattle.adb_words.specs.Apps.{option_rule, port_only, serve_app};
ghost use Rattle.adb_words.specs.Found.{Finds, texts_in, values_found};
ghost use Rattle.adb_words.specs.Given.{given_in};
ghost use Rattle.adb_words.specs.Serve.{each_of, flag_of, is_serve, port_of, serial_of};
ghost use Rattle.adb_words.specs.Serve.{serve_layout, serve_of, served_by, served_in, serving};

use crate::command::{DEFAULT_PORT, MAX_SERVED, WordsError};
use crate::given::{given_of, port_only, values_in, with_flag, with_option};
use crate::load::number_within;
use adb_outside::{Text, is_serial};
use clap::{ArgMatches, Command};
use std::alloc::{AllocError, Global};

/// The arguments of a server.
#[derive(Drop)]
pub struct Serve {
    /// The port on which it listens; 0 lets the system choose.
    pub port: u16,
    /// Whether its history is written to standard output.
    pub records: bool,
    /// The devices that it makes.
    pub ports: Ports,
}

/// The devices that a server makes.
#[derive(Drop)]
pub struct Ports {
    /// The serials of its model devices, in the order of the words.
    pub devices: Vec<Text>,
    /// The ports that it dials, one for each device, in the order of the words.
    pub connects: Vec<u16>,
}

/// Returns whether the first word is `serve`. It allocates nothing.
pub fn is_serve(words: &[String]) -> bool
    ensures { result ≡ is_serve (texts words.now) }
{
    match words {
        [name, ..] => name.as_str() == "serve",
        [] => false,
    }
}

/// Parses a server from the words after the program's name.
///
/// - `Usage`: the words are no server.
/// - `OutOfMemory`: an allocation failed; the words may be no server. It is returned only if the
///   first word is `serve`.
pub fn read_serve(alloc: Global, words: &[String]) -> Result<Serve, WordsError>
    ensures serve { IfOk result (λ serve. serve_of (texts words.now) ≡ Some (serving serve)) }
    ensures usage { result ≡ Err WordsError.Usage → serve_of (texts words.now) ≡ None }
    ensures named { result ≡ Err WordsError.OutOfMemory → is_serve (texts words.now) ≡ true }
{
    let [name, words @ ..] = words else {
        return Err(WordsError::Usage);
    };
    if name.as_str() != "serve" {
        return Err(WordsError::Usage);
    }
    read_behind(alloc, words)
}

/// Parses a server from the words after `serve`.
fn read_behind(alloc: Global, words: &[String]) -> Result<Serve, WordsError>
    ensures ok { IfOk result (λ serve.
        served_in (texts words.now) ≡ Some (serving serve)) }
    ensures usage { result ≡ Err WordsError.Usage
        → served_in (texts words.now) ≡ None }
{
    match serve_matches(alloc, words) {
        Ok(matches) => serve_in(alloc, &matches),
        Err(error) => Err(error),
    }
}

/// Returns the matches of the words after `serve`. `Usage` means that they are not the words of a
/// server.
fn serve_matches<'a>(alloc: Global, words: &'a [String]) -> Result<ArgMatches<'a>, WordsError>
    ensures ok { IfOk result (Finds serve_layout (texts words.entry.now)) }
    ensures refused { result ≡ Err WordsError.Usage
        → given_in serve_layout (texts words.entry.now) ≡ None }
{
    let Ok(command) = serve_command(alloc) else {
        return Err(WordsError::OutOfMemory);
    };
    given_of(command, &["port", "device", "connect"], &["record"], words)
}

/// Returns the command that parses the words.
fn serve_command<'a>(alloc: Global) -> Result<Command<'a>, AllocError>
    ensures { IfOk result (λ command. app_of command ≡ serve_app) }
{
    with_flag(alloc, serve_options(alloc)?, "record")
}

/// Returns the command with its options that have a value: a port, and the two kinds of devices.
fn serve_options<'a>(alloc: Global) -> Result<Command<'a>, AllocError>
    ensures { IfOk result (λ command. app_of command
        ≡ with_rule (with_rule (port_only (codes "serve")) (option_rule (codes "device")))
        (option_rule (codes "connect"))) }
{
    with_option(alloc, port_and_device(alloc)?, "connect")
}

/// Returns the command with the first two of these options.
fn port_and_device<'a>(alloc: Global) -> Result<Command<'a>, AllocError>
    ensures { IfOk result (λ command. app_of command
        ≡ with_rule (port_only (codes "serve")) (option_rule (codes "device"))) }
{
    with_option(alloc, port_only(alloc, "serve")?, "device")
}

/// Returns the server of the values that were found.
fn serve_in(alloc: Global, matches: &ArgMatches<'_>) -> Result<Serve, WordsError>
    ensures ok { IfOk result (λ serve.
        served_by (λ name. values_found name (found_of matches.now)) ≡ Some (serving serve)) }
    ensures usage { result ≡ Err WordsError.Usage
        → served_by (λ name. values_found name (found_of matches.now)) ≡ None }
{
    let devices = values_in(&*matches, "device", &[]);
    let connects = values_in(&*matches, "connect", &[]);
    if devices.len() > MAX_SERVED || connects.len() > MAX_SERVED - devices.len() {
        return Err(WordsError::Usage);
    }
    let port = port_in(values_in(&*matches, "port", &[]), 0)?;
    let records = flag_in(values_in(&*matches, "record", &[]))?;
    let ports = devices_in(alloc, devices, connects)?;
    Ok(Serve {
        port,
        records,
        ports,
    })
}

/// Returns the devices of the texts of `--device` and of `--connect`.
fn devices_in(alloc: Global, devices: &[&str], connects: &[&str]) -> Result<Ports, WordsError>
    ensures ok { IfOk result (λ ports.
        (each_of serial_of (texts_in devices.now) ≡ Some ports.devices.items)
        × (each_of (number_within 1 65535) (texts_in connects.now) ≡ Some ports.connects.items)) }
    ensures usage { result ≡ Err WordsError.Usage
        → (each_of serial_of (texts_in devices.now) ≡ None)
        ⊎ (each_of (number_within 1 65535) (texts_in connects.now) ≡ None) }
{
    let devices = serials_in(alloc, devices)?;
    let connects = ports_in(alloc, connects)?;
    Ok(Ports { devices, connects })
}

/// Returns the port of an option that may be given at most once: a number of at least `least`.
pub fn port_in(texts: &[&str], least: u16) -> Result<u16, WordsError>
    ensures { result ≡ ok_or (port_of least (texts_in texts.now)) WordsError.Usage }
{
    match texts {
        [] => Ok(DEFAULT_PORT),
        [text] => port_within(text, least).ok_or(WordsError::Usage),
        _ => Err(WordsError::Usage),
    }
}

/// Parses a text as a port number of at least `least`.
fn port_within(text: &str, least: u16) -> Option<u16>
    ensures { result ≡ number_within least 65535 text.now }
{
    let port = number_within(text, u64::from(least), u64::from(u16::MAX))?;
    Some(port as u16)
}

/// Returns whether a flag is given. It may be given at most once.
fn flag_in(texts: &[&str]) -> Result<bool, WordsError>
    ensures { result ≡ ok_or (flag_of (texts_in texts.now)) WordsError.Usage }
{
    match texts {
        [] => Ok(false),
        [_] => Ok(true),
        _ => Err(WordsError::Usage),
    }
}

/// Parses texts as serials.
fn serials_in(alloc: Global, texts: &[&str]) -> Result<Vec<Text>, WordsError>
    ensures ok { IfOk result (λ serials.
        each_of serial_of (texts_in texts.now) ≡ Some serials.items) }
    ensures usage { result ≡ Err WordsError.Usage
        → each_of serial_of (texts_in texts.now) ≡ None }
{
    let mut serials = Vec::new(alloc);
    for text in texts {
        let Some(serial) = serial_word(text) else {
            return Err(WordsError::Usage);
        };
        let serial = Text::from_slice(alloc, serial.as_bytes())?;
        if serials.push(serial).is_err() {
            return Err(WordsError::OutOfMemory);
        }
    }
    Ok(serials)
}

/// Returns the text if it is a serial.
fn serial_word<'a>(text: &'a str) -> Option<&'a str>
    ensures { option_map (λ serial. serial.now) result ≡ serial_of text.entry.now }
{
    if !is_serial(text.as_bytes()) {
        return None;
    }
    Some(text)
}

/// Copies the serial that a text is.
pub fn serial_in(alloc: Global, text: &str) -> Result<Text, WordsError>
    ensures ok { IfOk result (λ serial. serial_of text.now ≡ Some serial) }
    ensures usage { result ≡ Err WordsError.Usage → serial_of text.now ≡ None }
{
    if !is_serial(text.as_bytes()) {
        return Err(WordsError::Usage);
    }
    Ok(Text::from_slice(alloc, text.as_bytes())?)
}

/// Parses texts as ports.
fn ports_in(alloc: Global, texts: &[&str]) -> Result<Vec<u16>, WordsError>
    ensures ok { IfOk result (λ ports.
        each_of (number_within 1 65535) (texts_in texts.now) ≡ Some ports.items) }
    ensures usage { result ≡ Err WordsError.Usage
        → each_of (number_within 1 65535) (texts_in texts.now) ≡ None }
{
    let mut ports = Vec::new(alloc);
    for text in texts {
        let Some(port) = port_within(text, 1) else {
            return Err(WordsError::Usage);
        };
        if ports.push(port).is_err() {
            return Err(WordsError::OutOfMemory);
        }
    }
    Ok(ports)
}
