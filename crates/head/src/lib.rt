// The head of a file and its sections: checks 1 to 6.
#![tactic(auto)]

mod checks;

pub use checks::{Opening, Start, read_open, read_start};
