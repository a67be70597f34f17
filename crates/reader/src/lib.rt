// The prefix reader and the whole-file reader.
#![tactic(auto)]

mod checks;
mod verdict;

pub use checks::{read_file, read_opened, read_prefix};
pub use verdict::{Acceptance, RunTimes};
