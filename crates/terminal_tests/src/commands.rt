// Commands and the loops that they move, seen through what the master group wants.
use crate::steps::{Said, Step, pass, play};
use sharing::Aligned;
use std::process::Abort;
use terminal::Terminal;

/// Cell 0 of a maximum of 23 dBm is given a command. In the subframe in which it acts the cell wants data, if any, and four blocks of sounding,
/// at 10.5 dB below the level of data.
fn moved(rt: &impl Abort, data_base: i64, code: u32, data: Option<u32>, wanted: u64) {
    let mut terminal = Terminal::new(Aligned);
    play(
        rt,
        &mut terminal,
        &[
            (Step::Shares(330, 50, 50), Said::Done),
            (Step::Set(0, 0, 230, data_base, 0, -106), Said::Done),
            (Step::Command(0, 0, code), Said::Done),
        ],
    );
    pass(rt, &mut terminal, 0, 4);
    play(rt, &mut terminal, &[(Step::Open, Said::Ticket(4))]);
    if let Some(blocks) = data {
        play(
            rt,
            &mut terminal,
            &[(Step::Want(4, 0, 2, 3, blocks, 0, 0), Said::Done)],
        );
    }
    play(
        rt,
        &mut terminal,
        &[
            (Step::Want(4, 0, 3, 4, 4, 0, 0), Said::Done),
            (Step::Settle(4), Said::Ticket(4)),
            (Step::Groups(4), Said::Groups(wanted, wanted, 0, 0)),
        ],
    );
}

#[test]
fn steps_at_the_limits(rt: HostRuntime) {
    // at the maximum the loop stays at 0; 1 dB below it moves to 3
    moved(&rt, 23, 3, None, 71_131_176);
    moved(&rt, 22, 3, None, 112_735_316);
    // at 100 nW it stays at 0; 1 dB above it moves to -1
    moved(&rt, -40, 0, None, 32);
    moved(&rt, -39, 0, None, 32);
    // ten blocks of 13 dBm are 1 nW below the maximum: the loop moves to 3
    moved(&rt, 13, 3, Some(10), 213_718_763);
}

/// One block of data of cell 0 in the subframe, and what the master group wants and is granted.
fn one_block(rt: &impl Abort, terminal: &mut Terminal<Aligned>, number: u32, wanted: u64) {
    play(
        rt,
        terminal,
        &[
            (Step::Open, Said::Ticket(number)),
            (Step::Want(number, 0, 2, 3, 1, 0, 0), Said::Done),
            (Step::Settle(number), Said::Ticket(number)),
            (Step::Groups(number), Said::Groups(wanted, wanted, 0, 0)),
            (Step::Done(number), Said::Done),
        ],
    );
}

#[test]
fn commands_for_this_subframe_and_the_fourth_after(rt: HostRuntime) {
    let mut terminal = Terminal::new(Aligned);
    play(
        &rt,
        &mut terminal,
        &[
            (Step::Set(0, 0, 230, 10, 0, -106), Said::Done),
            (Step::Command(0, 0, 3), Said::Done),
        ],
    );
    pass(&rt, &mut terminal, 0, 3);
    one_block(&rt, &mut terminal, 3, 10_000_000);
    play(
        &rt,
        &mut terminal,
        &[
            (Step::Command(0, 0, 2), Said::Done),
            (Step::Command(0, 0, 2), Said::Refused(6)),
        ],
    );
    one_block(&rt, &mut terminal, 4, 19_952_623);
    pass(&rt, &mut terminal, 5, 7);
    one_block(&rt, &mut terminal, 7, 19_952_623);
    one_block(&rt, &mut terminal, 8, 25_118_864);
}

#[test]
fn dropped_subframe_keeps_the_command(rt: HostRuntime) {
    play(
        &rt,
        &mut Terminal::new(Aligned),
        &[
            (Step::Set(0, 0, 230, 10, 0, -106), Said::Done),
            (Step::Command(0, 0, 3), Said::Done),
            (Step::Open, Said::Ticket(0)),
            (Step::Drop(0), Said::Done),
            (Step::Command(0, 0, 3), Said::Refused(6)),
            (Step::Command(0, 1, 3), Said::Done),
        ],
    );
}
