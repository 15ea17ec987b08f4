//! A judge of histories.

ghost use Rattle.std.specs.Prelude.{◌≡◌, ◌∷◌, [], IfOk, OnErr};
ghost use Rattle.adb_history.specs.Machine.{History};
ghost use Rattle.adb_check.specs.Judging.{Judges, Says, verdict_of};

use crate::taking::take;
use crate::verdict::{Rule, Verdict};
use adb_capture::Entry;
use adb_hub::Hub;
use std::alloc::{AllocError, Global};
use std::marker::Model;

/// A judge of one history, entry by entry. It keeps a hub, and no entries.
#[derive(Drop)]
pub struct Judge {
    hub: Hub,
    broken: Option<Rule>,
}

impl Model for Judge {
    ghost use Rattle.adb_check.specs.Judging.{Judging};

    ghost Value = { Judging };

    ghost view = { λ judge. record { holds = judge.hub; broken = judge.broken } };
}

impl Judge {
    /// Returns a judge that was given no entries. Allocates nothing.
    pub fn new(alloc: Global) -> Judge
        ensures { Judges result [] }
    {
        Judge {
            hub: Hub::new(alloc),
            broken: None,
        }
    }

    /// Judges the entries given so far and one more. Returns `Legal` if each entry is legal after
    /// those before it, and otherwise the first rule that the first illegal entry breaks. After an
    /// illegal entry each call returns the same verdict.
    ///
    /// - `AllocError`: an allocation failed. The judge is unchanged.
    pub fn next(&mut self, entry: &Entry) -> Result<Verdict, AllocError>
        ensures judged { (given : History) → Judges self.old given → IfOk result (λ verdict.
            Says verdict (entry.now ∷ given) × Judges self.new (entry.now ∷ given)) }
        ensures err { OnErr result (self.new ≡ self.old) }
    {
        if let Some(rule) = self.broken {
            return Ok(Verdict::Illegal(rule));
        }
        let broken = take(&mut self.hub, entry)?;
        self.broken = broken;
        Ok(verdict_of(broken))
    }
}

/// Returns the verdict for a broken rule, or `Legal` if no rule was broken.
fn verdict_of(broken: Option<Rule>) -> Verdict
    ensures { result ≡ verdict_of broken }
{
    match broken {
        None => Verdict::Legal,
        Some(rule) => Verdict::Illegal(rule),
    }
}
