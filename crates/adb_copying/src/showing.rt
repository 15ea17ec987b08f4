//! The lines that show the files of a tree.

ghost use Rattle.std.specs.Prelude.{◌≡◌, ◌++◌, ◌∷◌, [], Some, true, is_some, option_map, decimal, codes, IfOk, OnOk};
ghost use Rattle.adb_files.specs.declared.file.File.{File};
ghost use Rattle.adb_files.specs.Files.{IsFileMap, file_at};
ghost use Rattle.adb_script.specs.Told.{texts_of};
ghost use Rattle.adb_copying.specs.Kept.{kept_lines};
ghost use Rattle.adb_trees.specs.Shown.{shown};

use adb_files::{File, Files};
use adb_outside::Text;
use adb_script::{Line, add_line, byte_sum, push_number};
use std::alloc::{AllocError, Global};

/// Returns the line that shows a file: its path, mode and time, the number of its bytes, and their
/// sum.
pub(crate) fn line_of(alloc: Global, path: &[u8], file: &File) -> Result<Text, AllocError>
    ensures { IfOk result (λ text. text ≡ shown (record { path = path.now; file = file.now })) }
{
    let mut text = Text::from_slice(alloc, path)?;
    push_behind_space(&mut text, u128::from(file.mode))?;
    push_behind_space(&mut text, u128::from(file.mtime))?;
    push_behind_space(&mut text, file.bytes.len() as u128)?;
    push_behind_space(&mut text, byte_sum(file.bytes.as_slice()))?;
    text.push_slice(b"\n")?;
    Ok(text)
}

/// Appends a space and a number.
fn push_behind_space(text: &mut Text, number: u128) -> Result<(), AllocError>
    ensures { OnOk result (text.new ≡ text.old ++ codes " " ++ decimal number) }
{
    text.push_slice(b" ")?;
    push_number(text, number)
}

/// Returns the lines that files keep as their bytes, in byte order of the paths.
pub(crate) fn lines_in(alloc: Global, files: &Files) -> Result<Vec<Line>, AllocError>
    ensures { IfOk result (λ lines. texts_of lines.items ≡ kept_lines files.now) }
{
    are_a_map(files);
    let mut lines = Vec::new(alloc);
    let mut after: &[u8] = b"";
    while let Some(path) = files.next_path(after) {
        add_line_at(files, path, &mut lines)?;
        after = path;
    }
    Ok(lines)
}

/// States that files are a map from path to file.
fn are_a_map(files: &Files)
    ensures { IsFileMap files.now }
{
    files.get(b"");
}

/// Appends the line that is kept at a path.
fn add_line_at(files: &Files, path: &[u8], lines: &mut Vec<Line>) -> Result<(), AllocError>
    requires there { is_some (file_at path.now files.now) ≡ true }
    ensures { OnOk result (option_map (λ (file : File). texts_of lines.old.items
        ++ file.bytes ∷ []) (file_at path.now files.now) ≡ Some (texts_of lines.new.items)) }
{
    match files.get(path) {
        Some(file) => add_line_of(file, lines),
        None => unreachable!(),
    }
}

/// Appends the line that is kept in a file.
fn add_line_of(file: &File, lines: &mut Vec<Line>) -> Result<(), AllocError>
    ensures { OnOk result (texts_of lines.new.items ≡ texts_of lines.old.items
        ++ file.now.bytes ∷ []) }
{
    let text = file.bytes.copy()?;
    add_line(lines, text)
}
