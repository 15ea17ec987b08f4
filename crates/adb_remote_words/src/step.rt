//! The meaning of the part of an answer that was read.

ghost use Rattle.std.specs.Prelude.{◌≡◌};
ghost use Rattle.adb_remote_words.specs.Meaning.{is_more, or_further, unended};

use crate::remote::Outcome;
use adb_sync_client::Step;

/// Returns whether an answer is not decided yet.
pub fn is_more(step: &Step<Outcome>) -> bool
    ensures { result ≡ is_more step.now }
{
    matches!(step, Step::More)
}

/// Returns the meaning of frames that are followed by this fault.
pub fn or_fault(step: Step<Outcome>, fault: Option<u64>) -> Step<Outcome>
    ensures { result ≡ or_further step (unended fault) }
{
    if !is_more(&step) {
        return step;
    }
    match fault {
        None => Step::More,
        Some(offset) => Step::BadAnswer { offset },
    }
}
