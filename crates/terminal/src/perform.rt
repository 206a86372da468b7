// Any call, made with a ticket of any number.
ghost use Rattle.std.specs.Prelude.{◌≡◌};
ghost use Rattle.states.specs.Admission.{refuses_want};
ghost use Rattle.terminal.specs.Pinned.{RefusedOrDone};
ghost use Rattle.terminal.specs.Changes.{want_given};
ghost use Rattle.terminal.specs.Calls.{answer_to, state_after, rule_after, Performs};

use crate::call::{Answer, Call};
use crate::terminal::Terminal;
use crate::tickets::{Ticket, Unsettled};
use cells::RawWant;
use refusals::Refusal;
use sharing::HoldingRule;

impl<R: HoldingRule> Terminal<R> {
    /// WANT, with a ticket of this number, which is spent.
    // Apart from `make`, which then needs no answer by hand for what WANT answers.
    fn make_want(&mut self, number: u32, cell: u32, want: RawWant) -> Result<(), Refusal>
        ensures { RefusedOrDone (refuses_want self.old.state number cell want) tt (want_given self.old.state cell want) self.old.state self.new.state self.old.rule self.new.rule result }
    {
        let ticket = Ticket::new(number);
        let answer = self.want(&ticket, cell, want);
        ticket.spend();
        answer
    }

    /// Makes the call. Its tickets are made from their numbers, and spent. A call that gives nothing answers `Accepted`.
    #[tactic(auto, using(crate::proofs::Performing::want_accepted))]
    fn make(&mut self, call: Call) -> Result<Answer, Refusal>
        ensures answers { result ≡ answer_to self.old.state call }
        ensures leaves { self.new.state ≡ state_after (R.reserve self.old.rule) self.old.state call }
        ensures leaves_rule { self.new.rule ≡ rule_after self.old.state self.old.rule call }
    {
        match call {
            Call::Set { cell, settings } => self.set(cell, settings)?,
            Call::Shares { shares } => self.shares(shares)?,
            Call::Loss { cell, loss } => self.loss(cell, loss)?,
            Call::Command { cell, command } => self.command(cell, command)?,
            Call::Open => return Ok(Answer::Opened(self.open()?.spend())),
            Call::Want { ticket, cell, want } => self.make_want(ticket, cell, want)?,
            Call::Settle { ticket } => {
                return match self.settle(Ticket::new(ticket)) {
                    Ok(settled) => Ok(Answer::Settled(settled.spend())),
                    Err(Unsettled { ticket, refusal }) => {
                        ticket.spend();
                        Err(refusal)
                    }
                };
            }
            Call::Groups { ticket } => {
                let ticket = Ticket::new(ticket);
                let answer = self.groups(&ticket);
                ticket.spend();
                return Ok(Answer::Groups(answer?));
            }
            Call::Done { ticket } => self.done(Ticket::new(ticket))?,
            Call::Drop { ticket } => self.drop_subframe(Ticket::new(ticket))?,
        }
        Ok(Answer::Accepted)
    }

    /// Makes any call, with a ticket of any number, and answers what it answered.
    pub fn perform(&mut self, call: Call) -> Result<Answer, Refusal>
        ensures { Performs R.reserve call self.old.state self.new.state self.old.rule self.new.rule result }
    {
        self.make(call)
    }
}
