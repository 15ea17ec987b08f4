//! Condition variables to notify after the lock is released.

ghost use Rattle.std.specs.Prelude.{◌≤◌};

use std::alloc::Global;
use std::sync::{Arc, Condvar};

/// Condition variables to notify after the lock is released: a thread that is notified while the
/// lock is held would only block on it. The first four need no allocation.
#[derive(Drop)]
pub struct Rings {
    first: Option<Arc<Condvar, Global>>,
    second: Option<Arc<Condvar, Global>>,
    third: Option<Arc<Condvar, Global>>,
    fourth: Option<Arc<Condvar, Global>>,
    further: Vec<Arc<Condvar, Global>>,
    strays: bool,
}

impl Rings {
    /// Makes a list without condition variables. `strays` says whether a worker sleeps on the
    /// shared one.
    pub(crate) fn new(alloc: Global, strays: bool) -> Rings {
        Rings {
            first: None,
            second: None,
            third: None,
            fourth: None,
            further: Vec::new(alloc),
            strays,
        }
    }

    /// Adds a condition variable, or notifies it at once if an allocation fails.
    pub(crate) fn ring(&mut self, bell: &Arc<Condvar, Global>) {
        let is_kept = match Arc::try_clone(bell) {
            Ok(copy) => self.keep(copy),
            Err(_) => false,
        };
        if !is_kept {
            bell.notify_one();
        }
    }

    /// Adds a condition variable, and returns whether it was added.
    fn keep(&mut self, bell: Arc<Condvar, Global>) -> bool {
        let Some(bell) = fill(&mut self.first, bell) else {
            return true;
        };
        let Some(bell) = fill(&mut self.second, bell) else {
            return true;
        };
        let Some(bell) = fill(&mut self.third, bell) else {
            return true;
        };
        let Some(bell) = fill(&mut self.fourth, bell) else {
            return true;
        };
        self.further.push(bell).is_ok()
    }

    /// Returns how many condition variables it notifies, not counting the shared one.
    pub fn len(&self) -> usize {
        let few = count(&self.first) + count(&self.second) + count(&self.third);
        self.further.len().saturating_add(few + count(&self.fourth))
    }

    /// Notifies all of them. The lock must be released first.
    pub fn ring_rest(self, common: &Condvar) {
        notify(&self.first);
        notify(&self.second);
        notify(&self.third);
        notify(&self.fourth);
        for bell in &self.further {
            bell.notify_one();
        }
        if self.strays {
            common.notify_all();
        }
    }
}

/// Puts a condition variable into a place, or returns it if the place is taken.
fn fill(
    place: &mut Option<Arc<Condvar, Global>>,
    bell: Arc<Condvar, Global>,
) -> Option<Arc<Condvar, Global>> {
    if place.is_some() {
        return Some(bell);
    }
    *place = Some(bell);
    None
}

/// Returns how many condition variables a place holds.
fn count(place: &Option<Arc<Condvar, Global>>) -> usize
    ensures { result ≤ 1 }
{
    if place.is_some() { 1 } else { 0 }
}

/// Notifies the condition variable in a place, if there is one.
fn notify(place: &Option<Arc<Condvar, Global>>) {
    if let Some(bell) = place {
        bell.notify_one();
    }
}
