//! The form of a path.

ghost use Rattle.std.specs.Prelude.{◌≡◌, ◌++◌, ◌==◌};
ghost use Rattle.adb_files.specs.Paths.{path_cmp, is_name, is_path, slash_behind, is_below};

use std::cmp::Ordering;

/// The path of the root directory.
pub const ROOT: &[u8] = b"/";

/// Returns whether bytes between slashes are a name.
fn is_name(name: &[u8]) -> bool
    ensures { result ≡ is_name name.now }
{
    !name.is_empty() && name != b".".as_slice() && name != b"..".as_slice() && !name.contains(&0)
}

/// Returns whether bytes are a path: `/`, or one or more parts of a slash and a name.
pub fn is_path(path: &[u8]) -> bool
    ensures { result ≡ is_path path.now }
{
    path == ROOT
        || path.starts_with(ROOT)
            && path[1..]
                .split(|byte| *byte == b'/')
                .all(|part| is_name(part))
}

/// Returns the bytes between a directory's path and the rest of a path below it.
pub fn slash_behind(directory: &[u8]) -> &'static [u8]
    ensures { result.now ≡ slash_behind directory.now }
{
    if directory == ROOT { b"" } else { b"/" }
}

/// Returns whether a path lies below a directory.
pub fn is_below(directory: &[u8], path: &[u8]) -> bool
    ensures { result ≡ is_below directory.now path.now }
{
    path.starts_with(directory) && path[directory.len()..].starts_with(slash_behind(directory))
}

/// Compares a path to one that is given in two parts.
pub fn compare(path: &[u8], front: &[u8], back: &[u8]) -> Ordering
    ensures { result ≡ path_cmp path.now (front.now ++ back.now) }
{
    let (start, rest) = path.split_at(path.len().min(front.len()));
    start.cmp(front).then(rest.cmp(back))
}
