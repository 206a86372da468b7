// What a played recording prints: a line for each settled subframe, and one for each fault.

#![tactic(auto)]

mod fault;
mod line;
mod text;

pub use fault::{PlayerFault, RefusedAt};
pub use faults::Fault;
pub use line::Line;
pub use text::{line_text, transcript};
