//! The answers that a fake returned.

ghost use Rattle.std.specs.Prelude.{◌≡◌, [], Some, option_map, is_some};
ghost use Rattle.adb_outside.specs.Outside.{TellsOneMore};

use std::alloc::Global;
use std::marker::Model;

/// The answers that a fake returned, in order. If the allocation for one more fails, the list is
/// given up: `list` returns `None` from then on.
#[derive(Drop)]
pub struct Answers<T: Drop> {
    list: Option<Vec<T>>,
}

impl<T: Drop> Model for Answers<T> {
    ghost use Rattle.std.specs.Prelude.{List, Option, option_map};

    ghost Value = { Option (List T) };

    ghost view = { λ a. option_map (λ list. list.items) a.list };
}

impl<T: Drop> Answers<T> {
    /// Returns an empty list of answers. Allocates nothing.
    pub fn new(alloc: Global) -> Answers<T>
        ensures { result ≡ Some [] }
    {
        Answers {
            list: Some(Vec::new(alloc)),
        }
    }

    /// Notes an answer. Returns whether the list is still complete.
    pub fn note(&mut self, answer: T) -> bool
        ensures told { TellsOneMore self.old answer self.new }
        ensures noted { result ≡ is_some self.new }
    {
        let noted = match &mut self.list {
            None => false,
            Some(list) => list.push(answer).is_ok(),
        };
        if !noted {
            self.list = None;
        }
        noted
    }

    /// Returns the answers in order; `None` once the list was given up.
    pub fn list(&self) -> Option<&[T]>
        ensures { option_map (λ list. list.now) result ≡ self.now }
    {
        match &self.list {
            None => None,
            Some(list) => Some(list.as_slice()),
        }
    }
}
