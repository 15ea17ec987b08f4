//! Scripts of the command `local`: their lines, the requests and bytes of each session of a line,
//! and the printed answers. Also the parts that all scripts share: cutting of lines and words, size
//! limits, and the bytes of files.
#![tactic(auto)]

mod answers;
mod asking;
mod counting;
mod echo;
mod laws;
mod line;
mod output;
mod pushing;
mod reading;
mod script;
mod sent;
mod told;
mod whole;
mod word;

pub use counting::{byte_sum, push_number};
pub use laws::{
    commands_are_run, limits_are, lists_are_told, pulls_are_read, pushed_files_are_pulled,
    pushes_are_stored, stats_are_told,
};
pub use line::{EchoLine, ScriptLine, SessionLine};
pub use output::push_escaped;
pub use pushing::{MAX_MODE, MIN_MODE, pattern_text, push_text};
pub use reading::split_once;
pub use script::{MAX_LINES, MAX_SCRIPT, Script, ScriptError, split_line};
pub use sent::pattern;
pub use told::{Line, add_line};
pub use whole::read_whole;
pub use word::{MAX_WORD, Word};
