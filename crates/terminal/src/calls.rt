// The calls. Each is refused by the first of its conditions that holds, and then changes nothing.
ghost use Rattle.std.specs.Prelude.{◌≡◌, Err, OnOk};
ghost use Rattle.refusals.specs.First.{first_that_holds, refused_or, unchanged_or, FirstThatHolds};
ghost use Rattle.terminal.specs.Pinned.{RefusedOrDone, refusal_in};
ghost use Rattle.states.specs.States.{fresh, groups_in};
ghost use Rattle.states.specs.Admission.{refuses_set, refuses_shares, refuses_loss, refuses_command, refuses_open, refuses_want, refuses_open_ticket, refuses_settled_ticket};
ghost use Rattle.terminal.specs.Tickets.{open_ticket, settled_or_back, why_back};
ghost use Rattle.terminal.specs.Settled.{settled_state, rule_settled, SubframeAddsUp};
ghost use Rattle.terminal.specs.Changes.{cell_set, shares_given, loss_given, command_given, subframe_opened, want_given, subframe_ended};

use crate::changes::put_want;
use crate::terminal::Terminal;
use crate::tickets::{OpenTicket, SettledTicket, Ticket, Unsettled};
use cells::{Cell, RawCommand, RawSettings, RawWant};
use refusals::Refusal;
use settling::GroupPowers;
use sharing::HoldingRule;
use states::{RawShares, State, Subframe};

impl<R: HoldingRule> Terminal<R> {
    /// A new terminal: a total of 23 dBm, half of it guaranteed to each group, no cell set.
    pub fn new(rule: R) -> Terminal<R>
        ensures state { result.state ≡ fresh }
        ensures rule { result.rule ≡ rule }
    {
        Terminal {
            state: State::fresh(),
            rule,
        }
    }

    /// SET: gives a cell its settings, puts its loss and its loops at 0 and clears its waiting commands.
    pub fn set(&mut self, cell: u32, settings: RawSettings) -> Result<(), Refusal>
        ensures { RefusedOrDone (refuses_set self.old.state cell settings) tt (cell_set self.old.state cell settings) self.old.state self.new.state self.old.rule self.new.rule result }
    {
        let (cell, settings) = self.state.admit_set(cell, settings)?;
        self.put_cell(cell, Cell::set(settings));
        Ok(())
    }

    /// SHARES: gives the total and the percentages of it that the groups are guaranteed.
    pub fn shares(&mut self, shares: RawShares) -> Result<(), Refusal>
        ensures { RefusedOrDone (refuses_shares self.old.state shares) tt (shares_given self.old.state shares) self.old.state self.new.state self.old.rule self.new.rule result }
    {
        let shares = self.state.admit_shares(shares)?;
        self.put_shares(shares);
        Ok(())
    }

    /// LOSS: gives a cell its path loss in dB.
    pub fn loss(&mut self, cell: u32, loss: u32) -> Result<(), Refusal>
        ensures { RefusedOrDone (refuses_loss self.old.state cell loss) tt (loss_given self.old.state cell loss) self.old.state self.new.state self.old.rule self.new.rule result }
    {
        let (cell, loss) = self.state.admit_loss(cell, loss)?;
        self.put_loss(cell, loss);
        Ok(())
    }

    /// COMMAND: a power control command to a channel of a cell. Given after n settled subframes it acts in subframe n + 4.
    pub fn command(&mut self, cell: u32, command: RawCommand) -> Result<(), Refusal>
        ensures { RefusedOrDone (refuses_command self.old.state cell command) tt (command_given self.old.state cell command) self.old.state self.new.state self.old.rule self.new.rule result }
    {
        let (cell, waiting) = self.state.admit_command(cell, command)?;
        self.put_cell(cell, waiting);
        Ok(())
    }

    /// OPEN: gives the open ticket of the next subframe, which bears the count of settled ones.
    pub fn open(&mut self) -> Result<OpenTicket, Refusal>
        ensures { RefusedOrDone (refuses_open self.old.state) (open_ticket self.old.state.settled) (subframe_opened self.old.state) self.old.state self.new.state self.old.rule self.new.rule result }
    {
        self.state.admit_open()?;
        self.open_subframe();
        Ok(Ticket::new(self.state.settled))
    }

    /// WANT: what a cell wants of the open subframe.
    pub fn want(&mut self, ticket: &OpenTicket, cell: u32, want: RawWant) -> Result<(), Refusal>
        ensures { RefusedOrDone (refuses_want self.old.state ticket.now.subframe cell want) tt (want_given self.old.state cell want) self.old.state self.new.state self.old.rule self.new.rule result }
    {
        let (cell, want) = self.state.admit_want(ticket.subframe, cell, want)?;
        let mut wants = self.state.wants();
        put_want(&mut wants, cell, want);
        self.state.subframe = Subframe::Open(wants);
        Ok(())
    }

    /// DONE: ends a settled subframe. Its ticket is spent even where the call is refused.
    pub fn done(&mut self, ticket: SettledTicket) -> Result<(), Refusal>
        ensures { RefusedOrDone (refuses_settled_ticket self.old.state ticket.subframe) tt (subframe_ended self.old.state) self.old.state self.new.state self.old.rule self.new.rule result }
    {
        ticket.give_back(&self.state)?;
        self.end_subframe();
        Ok(())
    }

    /// DROP: ends an open subframe and forgets its wants. Its ticket is spent even where the call is refused.
    pub fn drop_subframe(&mut self, ticket: OpenTicket) -> Result<(), Refusal>
        ensures { RefusedOrDone (refuses_open_ticket self.old.state ticket.subframe) tt (subframe_ended self.old.state) self.old.state self.new.state self.old.rule self.new.rule result }
    {
        ticket.give_back(&self.state)?;
        self.end_subframe();
        Ok(())
    }

    /// GROUPS: what both groups wanted and were granted in the settled subframe.
    pub fn groups(&mut self, ticket: &SettledTicket) -> Result<GroupPowers, Refusal>
        ensures answers { result ≡ refused_or (first_that_holds (refuses_settled_ticket self.old.state ticket.now.subframe)) (groups_in self.old.state.subframe) }
        ensures unchanged { self.new ≡ self.old }
        ensures refused_exactly { FirstThatHolds (refuses_settled_ticket self.old.state ticket.now.subframe) (refusal_in result) }
    {
        self.state.admit_settled_ticket(ticket.subframe)?;
        Ok(self.state.groups())
    }

    /// SETTLE: moves every loop and shares the total among the wants. A refused SETTLE hands its ticket back.
    pub fn settle(&mut self, ticket: OpenTicket) -> Result<SettledTicket, Unsettled>
        ensures answers { result ≡ settled_or_back (first_that_holds (refuses_open_ticket self.old.state ticket.subframe)) ticket }
        ensures leaves { self.new.state ≡ unchanged_or (first_that_holds (refuses_open_ticket self.old.state ticket.subframe)) (settled_state (R.reserve self.old.rule) self.old.state) self.old.state }
        ensures rule_settled { self.new.rule ≡ unchanged_or (first_that_holds (refuses_open_ticket self.old.state ticket.subframe)) (rule_settled self.old.rule) self.old.rule }
        ensures refused_exactly { FirstThatHolds (refuses_open_ticket self.old.state ticket.subframe) (why_back result) }
        ensures refused_changes_nothing { (u : Unsettled) → result ≡ Err u → (self.new.state ≡ self.old.state) × (self.new.rule ≡ self.old.rule) }
        ensures cells_add_up_to_groups { OnOk result (SubframeAddsUp self.new.state.subframe) }
    {
        if let Err(refusal) = self.state.admit_open_ticket(ticket.subframe) {
            return Err(Unsettled { ticket, refusal });
        }
        self.state = self.settled();
        Ok(ticket.settled())
    }
}
