// Any call, and any answer, as values.
use cells::{RawCommand, RawSettings, RawWant};
use settling::GroupPowers;
use states::RawShares;

/// A call, with the number of the ticket that it is made with. The ticket may be from elsewhere.
#[derive(Clone, Copy)]
pub enum Call {
    Set {
        cell: u32,
        settings: RawSettings,
    },
    Shares {
        shares: RawShares,
    },
    Loss {
        cell: u32,
        loss: u32,
    },
    Command {
        cell: u32,
        command: RawCommand,
    },
    Open,
    Want {
        ticket: u32,
        cell: u32,
        want: RawWant,
    },
    Settle {
        ticket: u32,
    },
    Groups {
        ticket: u32,
    },
    Done {
        ticket: u32,
    },
    Drop {
        ticket: u32,
    },
}

/// What a call that is not refused answers. A ticket is answered by its number.
#[derive(Clone, Copy)]
pub enum Answer {
    Accepted,
    Opened(u32),
    Settled(u32),
    Groups(GroupPowers),
}
