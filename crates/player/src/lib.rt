// A recording played on a terminal.

#![tactic(auto)]

mod record;
mod whole;

pub use whole::{play, play_text};
