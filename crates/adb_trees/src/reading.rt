//! Parsing of the tree of a script.

ghost use Rattle.std.specs.Prelude.{◌≡◌, ◌≢◌, ◌<◌, ◌+◌, ℕ, Some, None, Err, length, IfOk, OnOk};
ghost use Rattle.adb_trees.specs.Trees.{AreNamed, Reads, first_bad, tree_of};

use crate::named::NamedTree;
use crate::tree::Tree;
use adb_script::{MAX_LINES, MAX_SCRIPT, ScriptError, split_line};
use std::alloc::{AllocError, Global};

/// Reads the files that the lines of a script name: lines that end with a newline, which the last
/// line may lack.
///
/// - `BadLine`: a line is refused; the first such line is reported.
/// - `OutOfMemory`: an allocation failed.
pub fn read_tree(alloc: Global, script: &[u8]) -> Result<NamedTree, ScriptError>
    ensures tree { IfOk result (λ files. tree_of script.now ≡ Some files) }
    ensures named { IfOk result (λ files. AreNamed files) }
    ensures good { OnOk result (first_bad script.now ≡ None) }
    ensures bad { (line : ℕ) → result ≡ Err (ScriptError.BadLine line)
        → first_bad script.now ≡ Some line }
    ensures told { (line : ℕ) → first_bad script.now ≡ Some line
        → result ≢ Err ScriptError.OutOfMemory → result ≡ Err (ScriptError.BadLine line) }
{
    let mut tree = Tree::new(alloc);
    let mut lines = 0;
    let mut rest = script;
    while !rest.is_empty() {
        rest = read_line(&mut tree, lines, script, rest)?;
        lines += 1;
    }
    Ok(tree.into_files())
}

/// Takes the first line of the rest of a script, after `lines` lines, and returns the bytes after
/// it.
fn read_line<'a>(
    tree: &mut Tree,
    lines: u32,
    script: &[u8],
    rest: &'a [u8],
) -> Result<&'a [u8], ScriptError>
    requires some { 0 < length rest.now }
    requires reads { Reads script.now rest.now lines tree.old }
    ensures ok { IfOk result (λ more. Reads script.now more.now (lines + 1) tree.new) }
    ensures less { IfOk result (λ more. length more.now < length rest.now) }
    ensures bad { (line : ℕ) → result ≡ Err (ScriptError.BadLine line)
        → first_bad script.now ≡ Some line }
{
    let (text, more) = split_line(rest);
    let line = lines + 1;
    if line > MAX_LINES || script.len() - more.len() > MAX_SCRIPT {
        return Err(ScriptError::BadLine { line });
    }
    match tree.take(text) {
        Ok(true) => Ok(more),
        Ok(false) => Err(ScriptError::BadLine { line }),
        Err(AllocError) => Err(ScriptError::OutOfMemory),
    }
}
