// What a terminal keeps, as plain values.
ghost use Rattle.std.specs.Prelude.{◌≡◌};
ghost use Rattle.states.specs.States.{fresh, cell_at, is_busy, open_as, settled_as};

use crate::number::CellNumber;
use crate::shares::PowerShares;
use cells::{Cell, CellWants};
use levels::Level;
use settling::{GroupPowers, Outcome, Power};

/// The subframe that a terminal is busy with, if it is.
#[derive(Clone, Copy)]
pub enum Subframe {
    Idle,
    /// It takes wants.
    Open([CellWants; 8]),
    /// Its wants were settled.
    Settled {
        wants: [CellWants; 8],
        outcome: Outcome,
    },
}

/// All that a terminal keeps: its cells, the shares in force, how many subframes are settled, what each group wanted and was granted
/// in all of them, and the subframe that it is busy with.
#[derive(Clone, Copy)]
pub struct State {
    pub cells: [Cell; 8],
    pub shares: PowerShares,
    pub settled: u32,
    pub sums: GroupPowers,
    pub subframe: Subframe,
}

const NO_POWER: Power = Power {
    wanted: 0,
    granted: 0,
};

/// Nothing wanted and nothing granted.
pub(crate) const NO_POWERS: GroupPowers = GroupPowers {
    master: NO_POWER,
    secondary: NO_POWER,
};

impl State {
    /// A new terminal: a total of 23 dBm, half of it guaranteed to each group, no cell set.
    pub fn fresh() -> State
        ensures { result ≡ fresh }
    {
        State {
            cells: [Cell::unset(); 8],
            shares: PowerShares {
                total: Level::from_tenths(230),
                master: 50,
                secondary: 50,
            },
            settled: 0,
            sums: NO_POWERS,
            subframe: Subframe::Idle,
        }
    }

    /// The cell of a number.
    pub fn cell(&self, number: CellNumber) -> Cell
        ensures { result ≡ cell_at self.now number }
    {
        self.cells[number.place()]
    }

    /// Whether a subframe is open, or settled and not done with.
    pub fn is_busy(&self) -> bool
        ensures { result ≡ is_busy self.now.subframe }
    {
        match self.subframe {
            Subframe::Idle => false,
            Subframe::Open(_) => true,
            Subframe::Settled { .. } => true,
        }
    }

    /// Whether the subframe of this number is open.
    pub fn is_open(&self, number: u32) -> bool
        ensures { result ≡ open_as self.now number }
    {
        match self.subframe {
            Subframe::Open(_) => number == self.settled,
            _ => false,
        }
    }

    /// Whether the subframe of this number is settled and not done with.
    pub fn is_settled(&self, number: u32) -> bool
        ensures { result ≡ settled_as self.now number }
    {
        match self.subframe {
            Subframe::Settled { .. } => self.settled > 0 && number == self.settled - 1,
            _ => false,
        }
    }
}
