//! Scripts, whose lines say what a movie is made of, and the texts that describe files: what the program `mp4_tool`
//! reads and prints.
#![tactic(auto)]

mod commands;
mod faults;
mod info;
mod lines;
mod samples;
mod script;
mod script_writer;
mod show;

pub use commands::decimal_in;
pub use faults::fault_text;
pub use info::{file_info_text, info_text};
pub use samples::{file_samples_text, samples_text};
pub use script::{ScriptFault, run_script};
pub use script_writer::{ScriptWriteFault, ScriptWriter};
pub use show::show_text;
