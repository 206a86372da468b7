// A subframe's ticket is a plain number that must be given back: an open one by SETTLE or DROP, a settled one by DONE.
ghost use Rattle.std.specs.Prelude.{◌≡◌, Bool, true, false};
ghost use Rattle.refusals.specs.First.{first_that_holds, refused_or};
ghost use Rattle.states.specs.Admission.{refuses_open_ticket, refuses_settled_ticket};
ghost use Rattle.terminal.specs.Tickets.{ticket, settled_ticket};

use refusals::Refusal;
use states::State;
use std::marker::PhantomData;

/// The state of a ticket.
pub trait TicketState {
    // Whether the ticket was given back.
    ghost spent: { Bool };
}

/// The subframe of a ticket is open.
pub struct Open;

/// The subframe of a ticket is settled.
pub struct Settled;

/// The ticket was given back.
pub struct Spent;

impl TicketState for Open {
    ghost spent = { false };
}

impl TicketState for Settled {
    ghost spent = { false };
}

impl TicketState for Spent {
    ghost spent = { true };
}

/// The ticket of a subframe in the state `S`. It can be let go only once it is spent: a call has to take it.
#[must_use]
pub struct Ticket<S: TicketState> {
    pub(crate) subframe: u32,
    state: PhantomData<S>,
}

impl<S: TicketState> Drop for Ticket<S> {
    fn drop(self)
        requires { S.spent ≡ true }
    {
        let Ticket {
            subframe: _,
            state: _,
        } = self;
    }
}

pub type OpenTicket = Ticket<Open>;

pub type SettledTicket = Ticket<Settled>;

impl<S: TicketState> Ticket<S> {
    pub(crate) fn new(subframe: u32) -> Ticket<S>
        ensures { result ≡ ticket subframe }
    {
        Ticket {
            subframe,
            state: PhantomData,
        }
    }

    /// The ticket of the same subframe in another state.
    fn into_state<T: TicketState>(self) -> Ticket<T>
        ensures { result ≡ ticket self.subframe }
    {
        let Ticket { subframe, state: _ } = self;
        Ticket::new(subframe)
    }

    /// Spends the ticket. Only its number is left.
    pub(crate) fn spend(self) -> u32
        ensures { result ≡ self.subframe }
    {
        let spent: Ticket<Spent> = self.into_state();
        spent.subframe
    }

    /// The number of the subframe.
    pub fn subframe(&self) -> u32
        ensures { result ≡ self.now.subframe }
    {
        self.subframe
    }
}

impl Ticket<Open> {
    /// Gives the ticket back to a terminal in this state. It is spent even where that is refused.
    pub(crate) fn give_back(self, state: &State) -> Result<(), Refusal>
        ensures { result ≡ refused_or (first_that_holds (refuses_open_ticket state.now self.subframe)) tt }
    {
        state.admit_open_ticket(self.spend())
    }

    /// The same ticket, once its subframe is settled.
    pub(crate) fn settled(self) -> SettledTicket
        ensures { result ≡ settled_ticket self.subframe }
    {
        self.into_state()
    }
}

// `give_back` once for each state: the conditions of the two differ, and each body is one line.
impl Ticket<Settled> {
    /// Gives the ticket back to a terminal in this state. It is spent even where that is refused.
    pub(crate) fn give_back(self, state: &State) -> Result<(), Refusal>
        ensures { result ≡ refused_or (first_that_holds (refuses_settled_ticket state.now self.subframe)) tt }
    {
        state.admit_settled_ticket(self.spend())
    }
}

/// A refused SETTLE: its ticket, handed back, and the refusal.
pub struct Unsettled {
    pub ticket: OpenTicket,
    pub refusal: Refusal,
}
