// What a terminal keeps of a cell.
ghost use Rattle.std.specs.Prelude.{◌≡◌};
ghost use Rattle.refusals.specs.First.{NoneHolds};
ghost use Rattle.cells.specs.Ranges.{SettingsInRange, loss_conditions};
ghost use Rattle.cells.specs.Cells.{unset_cell, fresh_cell, with_loss, CellInRange};

use crate::commands::TpcCommand;
use crate::settings::Settings;

/// A cell: its settings, its path loss in dB, its loops in dB, and for each loop five places in which commands wait.
// The ranges are no invariant of the type: `set` takes any settings and `set_loss` any loss, so they stand in the clauses.
// A loop with its commands is no struct of its own: what is promised of loops never speaks of the commands, and each clause would have one field more to go through.
#[derive(Clone, Copy)]
pub struct Cell {
    pub settings: Option<Settings>,
    pub loss: u8,
    pub data_loop: i16,
    pub control_loop: i16,
    pub data_commands: [Option<TpcCommand>; 5],
    pub control_commands: [Option<TpcCommand>; 5],
}

impl Cell {
    /// A cell that was never set.
    pub fn unset() -> Cell
        ensures value { result ≡ unset_cell }
        ensures in_range { CellInRange result }
    {
        Cell {
            settings: None,
            loss: 0,
            data_loop: 0,
            control_loop: 0,
            data_commands: [None; 5],
            control_commands: [None; 5],
        }
    }

    /// A cell that was just set: no loss, both loops at 0, no command waits.
    pub fn set(settings: Settings) -> Cell
        ensures value { result ≡ fresh_cell settings }
        ensures in_range { SettingsInRange settings → CellInRange result }
    {
        Cell {
            settings: Some(settings),
            ..Cell::unset()
        }
    }

    /// Gives the cell its path loss.
    pub fn set_loss(&mut self, loss: u8)
        ensures leaves { self.new ≡ with_loss self.old loss }
        ensures in_range { CellInRange self.old → NoneHolds (loss_conditions loss) → CellInRange self.new }
    {
        self.loss = loss;
    }
}
