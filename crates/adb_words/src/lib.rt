//! Parsing of a command line: from its words to the command that they name.
//!
//! `read_serve` parses the words of `serve`, `read_tool` those of a client tool, and `read_words`
//! those of every other command. `is_serve` and `names_tool` select the parser.
#![tactic(auto)]

mod command;
mod given;
mod load;
mod operands;
mod seed;
mod serve;
mod tool;
mod tool_matches;
mod words;

pub use command::{Command, WordsError, limits_are};
pub use serve::{Ports, Serve, is_serve, read_serve};
pub use tool::{Call, Tool, names_tool, read_tool};
pub use words::read_words;
