// A recording as text: a line for each record or fault.

#![tactic(auto)]

mod lines;
mod printing;

pub use lines::RecordLine;
pub use printing::print_listing;
