// A cell's settings, loops and waiting commands, and the powers that it wants in nanowatts.

#![tactic(auto)]

mod cell;
mod commands;
mod every;
mod loops;
mod powers;
mod ranges;
mod settings;
mod waiting;
mod wants;

pub use cell::Cell;
pub use commands::{Channel, Command, RawCommand, TpcCommand, step};
pub use every::{move_all, wanted_all};
pub use powers::{DataValues, Powers, data_want};
pub use ranges::checked_loss;
pub use settings::{LoopKind, RawSettings, Settings};
pub use wants::{
    CellWants, ControlFormat, ControlWant, DataWant, RawWant, SoundingWant, Want, WantKind,
};
