// Tickets, and a subframe that both groups want more of than there is.
use crate::steps::{Said, Step, pass, play};
use refusals::Refusal;
use sharing::Aligned;
use std::test::Fail;
use terminal::{OpenTicket, Terminal, Unsettled};

/// Settles a subframe of one terminal with the ticket. Where the ticket is handed back, it drops a subframe of the other.
fn settled_or_dropped(
    here: &mut Terminal<Aligned>,
    there: &mut Terminal<Aligned>,
    ticket: OpenTicket,
) -> (Option<Refusal>, Result<(), Refusal>) {
    match here.settle(ticket) {
        Ok(settled) => (None, here.done(settled)),
        Err(Unsettled { ticket, refusal }) => (Some(refusal), there.drop_subframe(ticket)),
    }
}

#[test]
fn refused_settle_hands_its_ticket_back(rt: HostRuntime) -> Result<(), Fail> {
    let mut here = Terminal::new(Aligned);
    let mut there = Terminal::new(Aligned);
    pass(&rt, &mut there, 0, 3);
    play(&rt, &mut here, &[(Step::Open, Said::Ticket(0))]);
    let ticket = there.open()?;
    let bears = ticket.subframe();
    let (refusal, dropped) = settled_or_dropped(&mut here, &mut there, ticket);
    assert_eq!(rt; bears, 3);
    assert_eq!(rt; refusal.map(Refusal::number), Some(8));
    assert_eq!(rt; dropped, Ok(()));
    play(
        &rt,
        &mut here,
        &[
            (Step::Settle(0), Said::Ticket(0)),
            (Step::Done(0), Said::Done),
        ],
    );
    Ok(())
}

#[test]
fn dropped_subframe_leaves_its_number(rt: HostRuntime) -> Result<(), Fail> {
    let mut terminal = Terminal::new(Aligned);
    pass(&rt, &mut terminal, 0, 2);
    let ticket = terminal.open()?;
    let (refusal, done) = settled_or_dropped(&mut terminal, &mut Terminal::new(Aligned), ticket);
    assert_eq!(rt; refusal, None);
    assert_eq!(rt; done, Ok(()));
    play(
        &rt,
        &mut terminal,
        &[
            (Step::Open, Said::Ticket(3)),
            (Step::Drop(3), Said::Done),
            (Step::Open, Said::Ticket(3)),
        ],
    );
    Ok(())
}

#[test]
fn two_halves_of_23_dbm(rt: HostRuntime) {
    play(
        &rt,
        &mut Terminal::new(Aligned),
        &[
            (Step::Set(0, 0, 230, 20, 0, -106), Said::Done),
            (Step::Set(4, 0, 230, 20, 0, -106), Said::Done),
            (Step::Shares(230, 50, 50), Said::Done),
            (Step::Open, Said::Ticket(0)),
            (Step::Want(0, 0, 2, 3, 1, 0, 0), Said::Done),
            (Step::Want(0, 4, 2, 3, 1, 0, 0), Said::Done),
            (Step::Settle(0), Said::Ticket(0)),
            (
                Step::Groups(0),
                Said::Groups(100_000_000, 99_763_116, 100_000_000, 99_763_115),
            ),
            (Step::Done(0), Said::Done),
            (Step::Groups(0), Said::Refused(8)),
        ],
    );
}
