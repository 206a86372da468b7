// Calls and answers in a short form, for tables.
use cells::{RawCommand, RawSettings, RawWant};
use refusals::Refusal;
use sharing::Aligned;
use states::RawShares;
use std::process::Abort;
use terminal::{Answer, Call, Terminal};

/// A call, its numbers in the order of the rules. A ticket comes first.
#[derive(Clone, Copy)]
pub enum Step {
    Set(u32, u32, i64, i64, u32, i64),
    Shares(i64, u32, u32),
    Loss(u32, u32),
    Command(u32, u32, u32),
    Open,
    Want(u32, u32, u32, u32, u32, u32, i64),
    Settle(u32),
    Groups(u32),
    Done(u32),
    Drop(u32),
}

/// An answer, with numbers only, as another program gives them: a refusal by its number, a ticket by its number, what the master group wanted and was granted and what the secondary was.
#[derive(Clone, Copy, PartialEq, Eq, Debug)]
pub enum Said {
    Refused(u8),
    Done,
    Ticket(u32),
    Groups(u64, u64, u64, u64),
}

impl From<Step> for Call {
    fn from(step: Step) -> Call {
        match step {
            Step::Set(cell, loop_kind, maximum, data_base, path_factor, control_base) => {
                Call::Set {
                    cell,
                    settings: RawSettings {
                        loop_kind,
                        maximum,
                        data_base,
                        path_factor,
                        control_base,
                    },
                }
            }
            Step::Shares(total, master, secondary) => Call::Shares {
                shares: RawShares {
                    total,
                    master,
                    secondary,
                },
            },
            Step::Loss(cell, loss) => Call::Loss { cell, loss },
            Step::Command(cell, channel, code) => Call::Command {
                cell,
                command: RawCommand { channel, code },
            },
            Step::Open => Call::Open,
            Step::Want(ticket, cell, kind, class, size, format, offset) => Call::Want {
                ticket,
                cell,
                want: RawWant {
                    kind,
                    class,
                    size,
                    format,
                    offset,
                },
            },
            Step::Settle(ticket) => Call::Settle { ticket },
            Step::Groups(ticket) => Call::Groups { ticket },
            Step::Done(ticket) => Call::Done { ticket },
            Step::Drop(ticket) => Call::Drop { ticket },
        }
    }
}

impl From<Answer> for Said {
    fn from(answer: Answer) -> Said {
        match answer {
            Answer::Accepted => Said::Done,
            Answer::Opened(number) => Said::Ticket(number),
            Answer::Settled(number) => Said::Ticket(number),
            Answer::Groups(groups) => Said::Groups(
                groups.master.wanted,
                groups.master.granted,
                groups.secondary.wanted,
                groups.secondary.granted,
            ),
        }
    }
}

impl From<Refusal> for Said {
    fn from(refusal: Refusal) -> Said {
        Said::Refused(refusal.number())
    }
}

/// Makes the calls in order and compares each answer.
// Terminal and `rt` stay two parameters: one is what is tested, the other the test's own.
pub fn play(rt: &impl Abort, terminal: &mut Terminal<Aligned>, rows: &[(Step, Said)]) {
    for &(step, expected) in rows {
        let answer = terminal.perform(Call::from(step));
        assert_eq!(rt; answer.map_or_else(Said::from, Said::from), expected);
    }
}

/// Settles subframes with no wants, from the first number up to the last, which is left out.
pub fn pass(rt: &impl Abort, terminal: &mut Terminal<Aligned>, first: u32, last: u32) {
    for number in first..last {
        play(
            rt,
            terminal,
            &[
                (Step::Open, Said::Ticket(number)),
                (Step::Settle(number), Said::Ticket(number)),
                (Step::Done(number), Said::Done),
            ],
        );
    }
}
