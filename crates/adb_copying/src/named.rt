//! The tree of a script, in the form that is pushed.

use adb_copy::PushedTree;
use adb_outside::Text;
use adb_trees::NamedTree;
use std::alloc::{AllocError, Global};

/// The tree that a script names. The bytes of a file are made when the file is pushed.
#[derive(Drop)]
pub struct ScriptTree {
    pub tree: NamedTree,
}

impl PushedTree for ScriptTree {
    ghost files = { λ tree. tree.tree };

    fn are_a_map(&self) {
        self.tree.are_a_map();
    }

    fn next_path(&self, after: &[u8]) -> Option<&[u8]> {
        self.tree.next_path(after)
    }

    fn text(&self, alloc: Global, path: &[u8]) -> Result<Text, AllocError> {
        self.tree.push_text(alloc, path)
    }
}
