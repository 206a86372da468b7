// What a terminal keeps, as plain values, and which calls it accepts.

#![tactic(auto)]

mod admission;
mod number;
mod shares;
mod state;
mod wanted;

pub use number::CellNumber;
pub use shares::{PowerShares, RawShares};
pub use state::{State, Subframe};
