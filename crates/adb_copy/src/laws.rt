//! Laws of all trees. Each function does nothing: its contract is the law.

ghost use Rattle.std.specs.Option.{option_or};
ghost use Rattle.std.specs.Prelude.{◌≡◌, ◌<◌, ◌≤◌, ◌+◌, ◌*◌, ◌^◌, List, ℕ, length};
ghost use Rattle.adb_copy.specs.Pulling.{directories};
ghost use Rattle.adb_copy.specs.Trees.{AreCopied, IsCopied, all_pushed, pushed};
ghost use Rattle.adb_files.specs.Entries.{Entry};
ghost use Rattle.adb_files.specs.Files.{IsFileMap, file_at, put_refusal};
ghost use Rattle.adb_files.specs.Served.{send_by, served};
ghost use Rattle.adb_sync_client.specs.Texts.{push_text};

/// States that, if no file of a tree was refused, the device has at each path of the tree the
/// tree's file, with the same mode, time and bytes. At every other path the device has what it had
/// before.
#[tactic(auto, using(crate::proofs::InPlace::are_in_place))]
pub fn pushed_files_are_in_place()
    ensures { (tree files new : List Entry) → IsFileMap tree → pushed files tree ≡ all_pushed new
        → (path : List ℕ)
        → file_at path new ≡ option_or (file_at path tree) (file_at path files) }
{}

/// States that the text that sends a file to a device is served as one SEND, with the file's mode
/// and time: the file is stored, or refused as a put of it is.
#[tactic(auto, using(crate::proofs::Sent::sent_by))]
pub fn files_are_sent_whole()
    ensures { (files : List Entry) (entry : Entry) → IsCopied entry → entry.file.mtime < 2 ^ 32
        → served files
        (push_text entry.path entry.file.mode entry.file.mtime entry.file.bytes)
        ≡ send_by files entry.path entry.file
        (put_refusal files entry.path (length entry.file.bytes)) }
{}

/// States that files are in few directories: the root, and at most 500 for each file.
#[tactic(auto, using(crate::proofs::PullDirectories::few_directories))]
pub fn directories_are_few()
    ensures { (files : List Entry) → IsFileMap files → AreCopied files
        → length (directories files) ≤ 1 + 500 * length files }
{}
