//! Laws of one stream alone.

ghost use Rattle.adb_daemon.specs.Device.{Setting};
ghost use Rattle.adb_laws_alone.specs.Alone.{EchoesLeaveFiles, OneRunsAlone};
ghost use Rattle.adb_laws_alone.specs.Together.{RunInPart, RunTogether};

/// States that if all packets of the host are of one id, after others that did not ask for it, its
/// stream was opened over the files of that time, each payload came over the files that those
/// before it left, and the files are those that it left.
pub fn a_stream_alone_runs_over_its_files()
    ensures { (setting : Setting) → OneRunsAlone setting }
{}

/// States that if the host asks only for echoes, and writes only for them, the files stay.
pub fn echoes_leave_files()
    ensures { (setting : Setting) → EchoesLeaveFiles setting }
{}

/// States that if all packets of the host are of ids that were not asked for before, each of which
/// is asked for once at most, their streams run over one set of files: all commands and whole sync
/// requests, in some order, lead from the files before to the files after, and each stream's
/// requests came in its input and were answered through them.
pub fn streams_run_together()
    ensures { (setting : Setting) → RunTogether setting }
{}

/// States that if an allocation fails in the device, its files are those after all commands and
/// whole sync requests that its streams asked by then, in one order, and that each stream asked for
/// a prefix of what came for it. No request and no command is left half done.
pub fn streams_run_in_part()
    ensures { (setting : Setting) → RunInPart setting }
{}
