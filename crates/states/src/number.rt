// The number of a cell that there is.
ghost use Rattle.std.specs.Prelude.{◌≡◌, ℕ, ◌<◌};
ghost use Rattle.refusals.specs.First.{first_that_holds, refused_or};
ghost use Rattle.states.specs.Numbers.{cell_conditions};
ghost use Rattle.states.specs.Wanted.{group_of, is_primary};

use refusals::Refusal;
use sharing::Group;
use std::marker::Model;

/// The number of a cell: 0 to 7.
#[derive(Clone, Copy, Debug, PartialEq, Eq)]
pub struct CellNumber {
    number: u32,
}

impl Model for CellNumber {
    ghost Value = { ℕ };

    ghost view = { λ c. c.number };

    ghost invariant = { λ c. c.number < 8 };

    ghost inverse = { λ n. record { number = n } };
}

impl TryFrom<u32> for CellNumber {
    type Error = Refusal;

    ghost try_from_gives = { λ number r. r ≡ refused_or (first_that_holds (cell_conditions number)) number };

    fn try_from(number: u32) -> Result<CellNumber, Refusal> {
        if number > 7 {
            return Err(Refusal::NoSuchCell);
        }
        Ok(CellNumber { number })
    }
}

impl CellNumber {
    /// The place of the cell among the eight.
    pub fn place(self) -> usize
        ensures value { result ≡ self }
        ensures below { result < 8 }
    {
        // A `usize` has no `From<u32>`.
        self.number as usize
    }

    /// The group of the cell: 0 to 3 are the master group's.
    pub(crate) fn group(self) -> Group
        ensures { result ≡ group_of self }
    {
        if self.number < 4 {
            Group::Master
        } else {
            Group::Secondary
        }
    }

    /// Whether the cell is the primary one of its group.
    pub(crate) fn is_primary(self) -> bool
        ensures { result ≡ is_primary self }
    {
        self.number == 0 || self.number == 4
    }
}
