//! Properties of all scripts and their answers.

ghost use Rattle.std.specs.Prelude.{◌≡◌, ◌≤◌, ◌<◌, ◌^◌, List, ℕ, length};
ghost use Rattle.adb_files.specs.Entries.{Entry};
ghost use Rattle.adb_files.specs.Files.{IsFileMap, file_at, put_refusal, read_refusal};
ghost use Rattle.adb_script.specs.Answers.{line_answer, pushed_line};
ghost use Rattle.adb_script.specs.Lines.{Asks, Lists, Pulls, Pushes, Runs, Stats};
ghost use Rattle.adb_script.specs.Meanings.{IsPulled, listed_over, pulled_by, pushed_by, ran_over, stat_over};
ghost use Rattle.adb_shell_service.specs.Commands.{words_of};
ghost use Rattle.adb_script.specs.Pattern.{pattern};
ghost use Rattle.adb_sync_client.specs.declared.step.Step.{Step};
ghost use Rattle.adb_script.specs.declared.asking.TheConstants.{FILE_MODE};
ghost use Rattle.adb_script.specs.declared.line.TheConstants.{COUNT_DIGITS, MAX_ECHOED, MAX_PUSHED, MAX_ECHO_STREAMS};
ghost use Rattle.adb_script.specs.declared.output.TheConstants.{CLOSE_STDIN, EXIT, STDERR, STDOUT};
ghost use Rattle.adb_script.specs.declared.pushing.TheConstants.{MAX_MODE, MIN_MODE};
ghost use Rattle.adb_script.specs.declared.script.TheConstants.{MAX_LINES, MAX_SCRIPT};
ghost use Rattle.adb_script.specs.declared.word.TheConstants.{MAX_WORD};

use adb_sync_client::written_files_are_pulled;

/// States the values of the constants that the definitions import.
pub fn limits_are()
    ensures script { MAX_SCRIPT ≡ 1048576 }
    ensures lines { MAX_LINES ≡ 1024 }
    ensures word { MAX_WORD ≡ 1000 }
    ensures digits { COUNT_DIGITS ≡ 8 }
    ensures pushed { MAX_PUSHED ≡ 16777216 }
    ensures streams { MAX_ECHO_STREAMS ≡ 64 }
    ensures echoed { MAX_ECHOED ≡ 67108864 }
    ensures mode { FILE_MODE ≡ 33188 }
    ensures least_mode { MIN_MODE ≡ 32768 }
    ensures most_mode { MAX_MODE ≡ 33279 }
    ensures output { STDOUT ≡ 1 }
    ensures error_output { STDERR ≡ 2 }
    ensures exit { EXIT ≡ 3 }
    ensures end_of_input { CLOSE_STDIN ≡ 4 }
{}

/// States that a push stores its file and prints `ok`, or changes nothing and prints the reason:
/// that of the file's refusal.
#[tactic(auto, using(crate::proofs::Printed::push_printed))]
pub fn pushes_are_stored()
    ensures { (files : List Entry) (number size : ℕ) (path : List ℕ)
        → length path ≤ MAX_WORD → number < 2 ^ 32
        → line_answer files number (Asks (Pushes path size))
        ≡ pushed_by files number path size (put_refusal files path size) }
{}

/// States that a pull changes nothing, and prints the number of bytes of the path's file and their
/// sum, or the reason why none is read.
pub fn pulls_are_read()
    ensures { (files : List Entry) (number : ℕ) (path : List ℕ) → length path ≤ MAX_WORD
        → line_answer files number (Asks (Pulls path))
        ≡ pulled_by files path (read_refusal files path) (file_at path files) }
{
    written_files_are_pulled();
}

/// States that a stat changes nothing, and prints the mode, the size and the time of the file or
/// directory at its path, or three zeros if nothing is there.
pub fn stats_are_told()
    ensures { (files : List Entry) (number : ℕ) (path : List ℕ)
        → IsFileMap files → length path ≤ MAX_WORD
        → line_answer files number (Asks (Stats path)) ≡ stat_over files path }
{}

/// States that a list changes nothing, and prints the number of direct entries of its path, and for
/// each its name, mode, size and time, in the order of the bytes of the names.
pub fn lists_are_told()
    ensures { (files : List Entry) (number : ℕ) (path : List ℕ)
        → IsFileMap files → length path ≤ MAX_WORD
        → line_answer files number (Asks (Lists path)) ≡ listed_over files path }
{}

/// States that a command leaves the files that its words produce, and prints its exit status and
/// everything that it wrote to its output and to its error output.
pub fn commands_are_run()
    ensures { (files : List Entry) (number : ℕ) (command : List ℕ)
        → line_answer files number (Asks (Runs command)) ≡ ran_over files (words_of command) }
{}

/// States that, after a push that printed `ok`, a pull of its path is handed the pushed bytes, and
/// prints their number and their sum.
pub fn pushed_files_are_pulled()
    ensures { (files : List Entry) (number later size : ℕ) (path : List ℕ)
        → length path ≤ MAX_WORD → number < 2 ^ 32
        → (line_answer files number (Asks (Pushes path size))).text
        ≡ pushed_line path size (Step.Done tt)
        → IsPulled (line_answer files number (Asks (Pushes path size))).files later path
        (pattern 0 size) }
{
    written_files_are_pulled();
}
