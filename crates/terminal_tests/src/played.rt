// Calls on one terminal. The answers were worked out by a model in another language, with whole numbers of any size.
use crate::steps::{Said, Step, play};
use sharing::Aligned;
use terminal::Terminal;

#[test]
fn answers_of_another_program(rt: HostRuntime) {
    let mut terminal = Terminal::new(Aligned);
    play(&rt, &mut terminal, &table());
}

fn table() -> [(Step, Said); 60] {
    [
        (Step::Set(4, 1, 330, 31, 9, -115), Said::Done),
        (Step::Command(4, 0, 1), Said::Done),
        (Step::Shares(-400, 2147483647, 39), Said::Refused(2)),
        (Step::Drop(0), Said::Refused(8)),
        (Step::Set(0, 0, -17, -78, 6, -89), Said::Done),
        (Step::Shares(288, 0, 100), Said::Done),
        (Step::Open, Said::Ticket(0)),
        (Step::Want(0, 4, 2, 2, 10, 0, 0), Said::Done),
        (Step::Want(5, 4, 2, 3, 109, 0, 0), Said::Refused(8)),
        (Step::Want(0, 4, 1, 1, 0, 1, 0), Said::Done),
        (Step::Want(0, 0, 2, 1, 1, 0, 0), Said::Done),
        (Step::Want(0, 0, 1, 2, 10, 3, -1), Said::Done),
        (Step::Settle(0), Said::Ticket(0)),
        (
            Step::Groups(0),
            Said::Groups(0, 0, 1_995_262_314, 758_577_575),
        ),
        (Step::Drop(0), Said::Refused(8)),
        (
            Step::Groups(0),
            Said::Groups(0, 0, 1_995_262_314, 758_577_575),
        ),
        (Step::Done(0), Said::Done),
        (Step::Open, Said::Ticket(1)),
        (Step::Drop(2), Said::Refused(8)),
        (Step::Want(1, 0, 1, 1, 11, 3, 0), Said::Done),
        (Step::Settle(1), Said::Ticket(1)),
        (Step::Done(1), Said::Done),
        (Step::Command(0, 0, 3), Said::Done),
        (Step::Command(4, 0, 3), Said::Done),
        (Step::Command(0, 1, 2), Said::Done),
        (Step::Command(0, 1, 0), Said::Refused(6)),
        (Step::Open, Said::Ticket(2)),
        (Step::Want(2, 0, 2, 3, 46, 0, 0), Said::Done),
        (Step::Drop(2), Said::Done),
        (Step::Command(4, 1, 1), Said::Done),
        (Step::Open, Said::Ticket(2)),
        (Step::Want(2, 4, 2, 3, 2, 0, 0), Said::Done),
        (Step::Want(2, 4, 1, 2, 0, 2, 0), Said::Done),
        (Step::Want(2, 0, 2, 3, 2, 0, 0), Said::Done),
        (Step::Want(2, 4, 2, 3, 2, 0, 0), Said::Refused(6)),
        (Step::Want(2, 0, 2, 1, 10, 0, 0), Said::Refused(6)),
        (Step::Want(2, 0, 3, 4, 8, 0, 14), Said::Done),
        (Step::Want(2, 0, 2, 3, 15, 0, 0), Said::Refused(6)),
        (Step::Settle(2), Said::Ticket(2)),
        (
            Step::Groups(2),
            Said::Groups(0, 0, 1_995_262_314, 758_577_575),
        ),
        (
            Step::Groups(2),
            Said::Groups(0, 0, 1_995_262_314, 758_577_575),
        ),
        (
            Step::Groups(2),
            Said::Groups(0, 0, 1_995_262_314, 758_577_575),
        ),
        (
            Step::Groups(2),
            Said::Groups(0, 0, 1_995_262_314, 758_577_575),
        ),
        (Step::Done(2), Said::Done),
        (Step::Command(0, 0, 3), Said::Done),
        (Step::Loss(0, 0), Said::Done),
        (Step::Command(4, 0, 0), Said::Done),
        (Step::Loss(4, 0), Said::Done),
        (Step::Shares(-215, 87, 13), Said::Done),
        (Step::Want(2, 0, 2, 0, 12, 0, 0), Said::Refused(8)),
        (Step::Shares(230, 30, 36), Said::Done),
        (Step::Command(4, 2147483647, 0), Said::Refused(2)),
        (Step::Command(0, 0, 1), Said::Refused(6)),
        (Step::Command(4, 1, 0), Said::Done),
        (Step::Command(4, 0, 0), Said::Refused(6)),
        (Step::Open, Said::Ticket(3)),
        (Step::Want(3, 4, 2, 2, 110, 0, 0), Said::Done),
        (Step::Done(4), Said::Refused(8)),
        (Step::Want(3, 4, 1, 2, 11, 3, 6), Said::Refused(6)),
        (Step::Want(3, 4, 2, 3, 110, 0, 0), Said::Refused(6)),
    ]
}
