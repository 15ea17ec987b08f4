//! Parsing of the words after the program's name.

ghost use Rattle.std.specs.Prelude.{◌≡◌, drop, string_bytes};
ghost use Rattle.adb_explain.specs.Words.{payloads_in, payloads_named, texts};

use adb_entry_lines::Payloads;

/// Parses the words: a line shows the bytes of its entry, or with `--lengths` only their number.
/// Returns `None` if the words are wrong.
pub fn payloads_of(words: &[String]) -> Option<Payloads>
    ensures { result ≡ payloads_in (texts words.now) }
{
    match words {
        [] => Some(Payloads::Whole),
        [word] => payloads_named(word),
        _ => None,
    }
}

/// Returns the words after the program's name.
pub(crate) fn words_after(arguments: &[String]) -> &[String]
    ensures { texts result.now ≡ drop 1 (texts arguments.now) }
{
    match arguments {
        [] => arguments,
        [_name, words @ ..] => words,
    }
}

fn payloads_named(word: &String) -> Option<Payloads>
    ensures { result ≡ payloads_named (string_bytes word.now) }
{
    match word.as_str() {
        "--lengths" => Some(Payloads::Lengths),
        _ => None,
    }
}
