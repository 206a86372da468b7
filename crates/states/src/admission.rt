// Which calls a terminal accepts. Each function answers the refusal of its call, or the call's fields as typed values.
ghost use Rattle.std.specs.Prelude.{◌≡◌, ◌≤◌, false, IfOk};
ghost use Rattle.refusals.specs.First.{first_that_holds, refused_or};
ghost use Rattle.cells.specs.Ranges.{settings_of, SettingsInRange, command_of};
ghost use Rattle.cells.specs.Cells.{CellInRange};
ghost use Rattle.cells.specs.Waiting.{queued};
ghost use Rattle.cells.specs.WantRanges.{want_of, WantInRange};
ghost use Rattle.states.specs.Totals.{shares_from, SharesKept};
ghost use Rattle.states.specs.Wanted.{given_already};
ghost use Rattle.states.specs.States.{wants_in, groups_in, cell_at};
ghost use Rattle.states.specs.Admission.{refuses_busy, refuses_not_set, refuses_set, refuses_shares, refuses_loss, refuses_command_to, refuses_command, refuses_open, refuses_want_of, refuses_want, refuses_open_ticket, refuses_settled_ticket};

use crate::number::CellNumber;
use crate::shares::{PowerShares, RawShares};
use crate::state::{NO_POWERS, State, Subframe};
use crate::wanted::given_already;
use cells::{
    Cell, CellWants, Channel, Command, RawCommand, RawSettings, RawWant, Settings, Want, WantKind,
    checked_loss,
};
use refusals::Refusal;
use settling::GroupPowers;

/// As many subframes as a terminal settles: ten days of them.
const MOST_SUBFRAMES: u32 = 864_000_000;

impl State {
    /// Refused while a subframe is open, or settled and not done with.
    fn check_idle(&self) -> Result<(), Refusal>
        ensures { result ≡ refused_or (first_that_holds (refuses_busy self.now)) tt }
    {
        if self.is_busy() {
            return Err(Refusal::Busy);
        }
        Ok(())
    }

    /// Refused of a cell with no settings yet.
    fn check_set(&self, cell: CellNumber) -> Result<(), Refusal>
        ensures { result ≡ refused_or (first_that_holds (refuses_not_set self.now cell)) tt }
    {
        if self.cell(cell).settings.is_none() {
            return Err(Refusal::CellNotSet);
        }
        Ok(())
    }

    /// The wants of the subframe; while there is none, nothing is wanted.
    pub fn wants(&self) -> [CellWants; 8]
        ensures { result ≡ wants_in self.now.subframe }
    {
        match self.subframe {
            Subframe::Open(wants) => wants,
            Subframe::Settled { wants, outcome: _ } => wants,
            Subframe::Idle => [CellWants::NONE; 8],
        }
    }

    /// What both groups wanted and were granted in the subframe, once it is settled.
    pub fn groups(&self) -> GroupPowers
        ensures { result ≡ groups_in self.now.subframe }
    {
        match self.subframe {
            Subframe::Settled { wants: _, outcome } => outcome.groups,
            _ => NO_POWERS,
        }
    }

    /// SET.
    pub fn admit_set(
        &self,
        cell: u32,
        settings: RawSettings,
    ) -> Result<(CellNumber, Settings), Refusal>
        ensures answers { result ≡ refused_or (first_that_holds (refuses_set self.now cell settings)) (cell, settings_of settings) }
        ensures in_range { IfOk result (λ p. SettingsInRange p.1) }
    {
        self.check_idle()?;
        let cell = CellNumber::try_from(cell)?;
        let settings = Settings::try_from(settings)?;
        Ok((cell, settings))
    }

    /// SHARES.
    pub fn admit_shares(&self, shares: RawShares) -> Result<PowerShares, Refusal>
        ensures answers { result ≡ refused_or (first_that_holds (refuses_shares self.now shares)) (shares_from shares) }
        ensures in_range { IfOk result SharesKept }
    {
        self.check_idle()?;
        PowerShares::try_from(shares)
    }

    /// LOSS.
    pub fn admit_loss(&self, cell: u32, loss: u32) -> Result<(CellNumber, u8), Refusal>
        ensures answers { result ≡ refused_or (first_that_holds (refuses_loss self.now cell loss)) (cell, loss) }
        ensures in_range { IfOk result (λ p. p.1 ≤ 200) }
    {
        self.check_idle()?;
        let cell = CellNumber::try_from(cell)?;
        let loss = checked_loss(loss)?;
        self.check_set(cell)?;
        Ok((cell, loss))
    }

    /// COMMAND, but for a second command of its channel for the same subframe.
    fn admit_command_to(
        &self,
        cell: u32,
        command: RawCommand,
    ) -> Result<(CellNumber, Command), Refusal>
        ensures { result ≡ refused_or (first_that_holds (refuses_command_to self.now cell command)) (cell, command_of command) }
    {
        self.check_idle()?;
        let cell = CellNumber::try_from(cell)?;
        let command = Command::try_from(command)?;
        self.check_set(cell)?;
        if command.channel == Channel::Control && !cell.is_primary() {
            return Err(Refusal::NotPrimary);
        }
        Ok((cell, command))
    }

    /// COMMAND: the cell with the command waiting.
    pub fn admit_command(
        &self,
        cell: u32,
        command: RawCommand,
    ) -> Result<(CellNumber, Cell), Refusal>
        ensures answers { result ≡ refused_or (first_that_holds (refuses_command self.now cell command)) (cell, queued (cell_at self.now cell) self.now.settled (command_of command)) }
        ensures in_range { IfOk result (λ p. CellInRange (cell_at self.now p.0) → CellInRange p.1) }
    {
        let (cell, command) = self.admit_command_to(cell, command)?;
        let mut waiting = self.cell(cell);
        waiting.queue(self.settled, command)?;
        Ok((cell, waiting))
    }

    /// OPEN.
    pub fn admit_open(&self) -> Result<(), Refusal>
        ensures { result ≡ refused_or (first_that_holds (refuses_open self.now)) tt }
    {
        self.check_idle()?;
        if self.settled >= MOST_SUBFRAMES {
            return Err(Refusal::NoMoreSubframes);
        }
        Ok(())
    }

    /// A want whose fields are in range, of a cell that there is.
    fn admit_want_of(&self, cell: CellNumber, want: Want) -> Result<(), Refusal>
        ensures { result ≡ refused_or (first_that_holds (refuses_want_of self.now cell want)) tt }
    {
        self.check_set(cell)?;
        if want.kind() == WantKind::Control && !cell.is_primary() {
            return Err(Refusal::NotPrimary);
        }
        if given_already(&self.wants(), cell, want) {
            return Err(Refusal::GivenAlready);
        }
        Ok(())
    }

    /// WANT, with an open ticket of this number.
    pub fn admit_want(
        &self,
        number: u32,
        cell: u32,
        want: RawWant,
    ) -> Result<(CellNumber, Want), Refusal>
        ensures answers { result ≡ refused_or (first_that_holds (refuses_want self.now number cell want)) (cell, want_of want) }
        ensures in_range { IfOk result (λ p. WantInRange p.1) }
        ensures new { IfOk result (λ p. given_already (wants_in self.now.subframe) p.0 p.1 ≡ false) }
    {
        self.admit_open_ticket(number)?;
        let cell = CellNumber::try_from(cell)?;
        let want = Want::try_from(want)?;
        self.admit_want_of(cell, want)?;
        Ok((cell, want))
    }

    /// SETTLE and DROP, with an open ticket of this number.
    pub fn admit_open_ticket(&self, number: u32) -> Result<(), Refusal>
        ensures { result ≡ refused_or (first_that_holds (refuses_open_ticket self.now number)) tt }
    {
        if !self.is_open(number) {
            return Err(Refusal::NoSuchSubframe);
        }
        Ok(())
    }

    /// GROUPS and DONE, with a settled ticket of this number.
    // Two functions and not one with a flag: a settled subframe bears a number that is one less than the count.
    pub fn admit_settled_ticket(&self, number: u32) -> Result<(), Refusal>
        ensures { result ≡ refused_or (first_that_holds (refuses_settled_ticket self.now number)) tt }
    {
        if !self.is_settled(number) {
            return Err(Refusal::NoSuchSubframe);
        }
        Ok(())
    }
}
