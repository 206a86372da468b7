// Recordings: the bytes that a returned box brings with it, read record by record.

#![tactic(auto)]

mod cursor;
mod kinds;
mod numbers;
mod parsed;
mod reader;
mod records;
mod runs;

pub use faults::{Fault, Layer, LayoutFaultKind, Mark, NumberFault, NumberFaultKind, RecordFault};
pub use kinds::{RecordKind, UnknownLetter};
pub use numbers::{meaning, read_number};
pub use parsed::Parsed;
pub use reader::Reader;
pub use records::{Record, read_record};
pub use runs::{Tally, read_through};
