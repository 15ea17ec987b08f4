//! The scripts that commands read.

/// The kind of a script: the meaning of its lines, and the lines that are written for it.
#[derive(Clone, Copy, Debug, PartialEq, Eq, Drop)]
pub enum ScriptKind {
    /// Each line makes a request to a device and is answered by a line.
    Local,
    /// Each line names a file of a tree. Each file that comes back is shown by a line.
    Copy,
}
