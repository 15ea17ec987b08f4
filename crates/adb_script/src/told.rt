//! The lines of a script's answer.

ghost use Rattle.std.specs.Prelude.{◌≡◌, ◌++◌, ◌∷◌, [], OnOk};
ghost use Rattle.adb_script.specs.Told.{texts_of};

use adb_outside::Text;
use std::alloc::AllocError;

/// A line of a script's answer, with the newline that ends it.
#[derive(Drop)]
pub struct Line {
    pub text: Text,
}

/// Appends a line. If the allocation fails, the line is dropped, and the lines are unchanged.
pub fn add_line(lines: &mut Vec<Line>, text: Text) -> Result<(), AllocError>
    ensures { OnOk result (texts_of lines.new.items ≡ texts_of lines.old.items ++ text ∷ []) }
{
    lines.push(Line { text })?;
    Ok(())
}
