// All eight cells of a terminal.
ghost use Rattle.std.specs.Prelude.{◌≡◌, ◌<◌};
ghost use Rattle.std.specs.List.{AllByRecursion};
ghost use Rattle.cells.specs.Cells.{CellInRange};
ghost use Rattle.cells.specs.WantRanges.{WantsInRange};
ghost use Rattle.cells.specs.Promises.{WithinMaximum};
ghost use Rattle.cells.specs.Every.{all_moved, all_wanted, wanted_at, Pairwise};

use crate::cell::Cell;
use crate::powers::Powers;
use crate::wants::CellWants;
use std::array;

// `cells` and `wants` stay two arrays: a terminal keeps its cells, and its wants come and go with a subframe.

/// Moves the loops of every cell by the commands that wait for a subframe.
#[tactic(auto, using(crate::proofs::InTurn::moved_each))]
pub fn move_all(cells: &mut [Cell; 8], wants: &[CellWants; 8], subframe: u32)
    ensures leaves { cells.new ≡ all_moved cells.old wants.now subframe }
    ensures loop_limits { AllByRecursion CellInRange cells.old → AllByRecursion WantsInRange wants.now → AllByRecursion CellInRange cells.new }
{
    // Not `cells.iter_mut().zip(wants)`: after it a proof knows nothing of the cells.
    for (number, wants) in wants.iter().enumerate() {
        cells[number].move_loops(*wants, subframe);
    }
}

/// What one of the cells wants, the loops as they stand.
fn wanted_of(cells: &[Cell; 8], wants: &[CellWants; 8], number: usize) -> Powers
    requires { number < 8 }
    ensures { result ≡ wanted_at cells.now wants.now number }
{
    cells[number].wanted(wants[number])
}

/// What every cell wants, the loops as they stand.
pub fn wanted_all(cells: &[Cell; 8], wants: &[CellWants; 8]) -> [Powers; 8]
    ensures value { result ≡ all_wanted cells.now wants.now }
    ensures within_maximum { Pairwise WithinMaximum cells.now result }
{
    array::from_fn(|number| wanted_of(cells, wants, number))
}
