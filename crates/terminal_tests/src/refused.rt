// Refusals and their order. A refused call changes nothing, so every row of a table finds the terminal as the accepted rows before it left it.
use crate::steps::{Said, Step, pass, play};
use cells::CellWants;
use refusals::Refusal;
use sharing::Aligned;
use states::{State, Subframe};
use terminal::Terminal;

#[test]
fn each_refusal(rt: HostRuntime) {
    let mut terminal = Terminal::new(Aligned);
    pass(&rt, &mut terminal, 0, 3);
    play(&rt, &mut terminal, &each());
}

fn each() -> [(Step, Said); 20] {
    [
        (Step::Loss(8, 90), Said::Refused(1)),
        (Step::Loss(0, 201), Said::Refused(2)),
        (Step::Loss(0, 90), Said::Refused(3)),
        (Step::Shares(230, 60, 41), Said::Refused(7)),
        (Step::Shares(230, 60, 40), Said::Done),
        (Step::Set(0, 0, 230, 20, 0, -106), Said::Done),
        (Step::Set(1, 0, 230, 20, 0, -106), Said::Done),
        (Step::Loss(0, 200), Said::Done),
        (Step::Command(1, 1, 2), Said::Refused(4)),
        (Step::Command(1, 0, 2), Said::Done),
        (Step::Command(1, 0, 2), Said::Refused(6)),
        (Step::Open, Said::Ticket(3)),
        (Step::Open, Said::Refused(5)),
        (Step::Want(5, 0, 2, 3, 1, 0, 0), Said::Refused(8)),
        (Step::Settle(5), Said::Refused(8)),
        (Step::Want(3, 0, 2, 1, 1, 0, 0), Said::Done),
        (Step::Want(3, 0, 2, 3, 1, 0, 0), Said::Refused(6)),
        (Step::Want(3, 1, 2, 1, 1, 0, 0), Said::Refused(6)),
        (Step::Groups(3), Said::Refused(8)),
        (Step::Drop(3), Said::Done),
    ]
}

#[test]
fn first_of_two_refusals(rt: HostRuntime) {
    let mut terminal = Terminal::new(Aligned);
    play(&rt, &mut terminal, &idle());
    play(&rt, &mut terminal, &open());
}

/// Of each call that is refused two conditions hold. Cells 0 and 1 are set.
fn idle() -> [(Step, Said); 13] {
    [
        (Step::Set(0, 0, 230, 20, 0, -106), Said::Done),
        (Step::Set(1, 0, 230, 20, 0, -106), Said::Done),
        (Step::Set(8, 2, 230, 20, 0, -106), Said::Refused(1)),
        (Step::Loss(8, 201), Said::Refused(1)),
        (Step::Loss(7, 201), Said::Refused(2)),
        (Step::Shares(331, 60, 41), Said::Refused(2)),
        (Step::Shares(230, 101, 0), Said::Refused(2)),
        (Step::Command(8, 2, 0), Said::Refused(1)),
        (Step::Command(7, 0, 4), Said::Refused(2)),
        (Step::Command(1, 1, 4), Said::Refused(2)),
        (Step::Command(5, 1, 0), Said::Refused(3)),
        (Step::Want(0, 8, 2, 3, 1, 0, 0), Said::Refused(8)),
        (Step::Want(0, 0, 4, 3, 1, 0, 0), Said::Refused(8)),
    ]
}

fn open() -> [(Step, Said); 16] {
    [
        (Step::Open, Said::Ticket(0)),
        (Step::Want(0, 0, 2, 1, 1, 0, 0), Said::Done),
        (Step::Set(8, 0, 230, 20, 0, -106), Said::Refused(5)),
        (Step::Set(0, 2, 230, 20, 0, -106), Said::Refused(5)),
        (Step::Shares(331, 50, 50), Said::Refused(5)),
        (Step::Shares(230, 60, 41), Said::Refused(5)),
        (Step::Loss(8, 90), Said::Refused(5)),
        (Step::Loss(0, 201), Said::Refused(5)),
        (Step::Loss(7, 90), Said::Refused(5)),
        (Step::Command(8, 0, 0), Said::Refused(5)),
        (Step::Command(1, 1, 0), Said::Refused(5)),
        (Step::Want(1, 8, 2, 3, 1, 0, 0), Said::Refused(8)),
        (Step::Want(0, 8, 4, 3, 1, 0, 0), Said::Refused(1)),
        (Step::Want(0, 7, 4, 3, 1, 0, 0), Said::Refused(2)),
        (Step::Want(0, 5, 1, 1, 0, 1, 0), Said::Refused(3)),
        (Step::Want(0, 1, 1, 1, 0, 1, 0), Said::Refused(4)),
    ]
}

/// The answer to OPEN after so many settled subframes.
fn opened(settled: u32, subframe: Subframe) -> Result<(), Refusal> {
    State {
        settled,
        subframe,
        ..State::fresh()
    }
    .admit_open()
}

#[test]
fn last_subframe(rt: HostRuntime) {
    assert_eq!(rt; opened(863_999_999, Subframe::Idle), Ok(()));
    assert_eq!(rt;
        opened(864_000_000, Subframe::Idle),
        Err(Refusal::NoMoreSubframes)
    );
    assert_eq!(rt;
        opened(864_000_000, Subframe::Open([CellWants::NONE; 8])),
        Err(Refusal::Busy)
    );
}
