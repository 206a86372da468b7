// A terminal that shares one total between two cell groups under a holding rule, subframe by subframe.

#![tactic(auto)]

mod call;
mod calls;
mod changes;
mod perform;
mod settled;
mod terminal;
mod tickets;

pub use call::{Answer, Call};
pub use terminal::Terminal;
pub use tickets::{
    Open, OpenTicket, Settled, SettledTicket, Spent, Ticket, TicketState, Unsettled,
};
