// What accepted calls change of a terminal. Each change keeps what every terminal keeps to.
ghost use Rattle.std.specs.Prelude.{◌≡◌, ◌<◌};
ghost use Rattle.refusals.specs.First.{NoneHolds};
ghost use Rattle.cells.specs.Ranges.{loss_conditions};
ghost use Rattle.cells.specs.Cells.{CellInRange};
ghost use Rattle.states.specs.Totals.{SharesKept};
ghost use Rattle.states.specs.Wanted.{put_want};
ghost use Rattle.states.specs.States.{cell_at, with_cell, with_shares};
ghost use Rattle.terminal.specs.Changes.{loss_given, subframe_opened, subframe_ended};

use crate::terminal::Terminal;
use cells::{Cell, CellWants, Want};
use states::{CellNumber, PowerShares, Subframe};

/// Adds a want of a cell. Each kind has a place of its own.
pub(crate) fn put_want(wants: &mut [CellWants; 8], cell: CellNumber, want: Want)
    ensures { wants.new ≡ put_want wants.old cell want }
{
    let of_cell = &mut wants[cell.place()];
    match want {
        Want::Control(control) => of_cell.control = Some(control),
        Want::Data(data) => of_cell.data = Some(data),
        Want::Sounding(sounding) => of_cell.sounding = Some(sounding),
    }
}

impl<R> Terminal<R> {
    /// SET, LOSS and COMMAND: a cell in the place of another.
    pub(crate) fn put_cell(&mut self, number: CellNumber, cell: Cell)
        requires { CellInRange (cell_at self.old.state number) → CellInRange cell }
        ensures state { self.new.state ≡ with_cell self.old.state number cell }
        ensures rule { self.new.rule ≡ self.old.rule }
    {
        self.state.cells[number.place()] = cell;
    }

    /// LOSS: a path loss of a cell.
    pub(crate) fn put_loss(&mut self, number: CellNumber, loss: u8)
        requires { NoneHolds (loss_conditions loss) }
        ensures state { self.new.state ≡ loss_given self.old.state number loss }
        ensures rule { self.new.rule ≡ self.old.rule }
    {
        let mut cell = self.state.cell(number);
        cell.set_loss(loss);
        self.put_cell(number, cell);
    }

    /// SHARES.
    pub(crate) fn put_shares(&mut self, shares: PowerShares)
        requires { SharesKept shares }
        ensures state { self.new.state ≡ with_shares self.old.state shares }
        ensures rule { self.new.rule ≡ self.old.rule }
    {
        self.state.shares = shares;
    }

    /// OPEN: a subframe with no wants yet.
    pub(crate) fn open_subframe(&mut self)
        requires { self.old.state.settled < 864000000 }
        ensures state { self.new.state ≡ subframe_opened self.old.state }
        ensures rule { self.new.rule ≡ self.old.rule }
    {
        self.state.subframe = Subframe::Open([CellWants::NONE; 8]);
    }

    /// DONE and DROP: no subframe any more.
    pub(crate) fn end_subframe(&mut self)
        ensures state { self.new.state ≡ subframe_ended self.old.state }
        ensures rule { self.new.rule ≡ self.old.rule }
    {
        self.state.subframe = Subframe::Idle;
    }
}
