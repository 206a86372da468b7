// One record of a recording, played on a terminal with the ticket of its open subframe.
ghost use Rattle.std.specs.Prelude.{◌≡◌, true, false, [], ◌∷◌};
ghost use Rattle.std.specs.Option.{option_to_list};
ghost use Rattle.recording.specs.declared.kinds.RecordKind.TheVariants.{Open as OpenKind, Settle as SettleKind, Drop as DropKind};
ghost use Rattle.recording.specs.Contents.{numbered, content, out_of_place};
ghost use Rattle.recording.specs.Records.{body_read};
ghost use Rattle.states.specs.States.{fresh, is_open};
ghost use Rattle.terminal.specs.declared.call.Call.TheVariants.{Want};
ghost use Rattle.player.specs.Recorded.{plain_calls, PlainCall};
ghost use Rattle.player.specs.Played.{ticket_of, line_for, said, InPlace, PlaysCalls, PlaysRecord, PlaysItem};

use cells::{RawCommand, RawSettings, RawWant};
use lines::{Line, PlayerFault, RefusedAt};
use recording::{Fault, Record, RecordFault, meaning};
use refusals::Refusal;
use sharing::HoldingRule;
use states::RawShares;
use std::ops::ControlFlow;
use terminal::{Answer, Call, OpenTicket, Terminal};

/// The line of what a call answered: a refusal is a fault at the record's place, what GROUPS answers is a line of its subframe.
fn answer_line(place: usize, subframe: u32, answer: Result<Answer, Refusal>) -> Option<Line>
    ensures { option_to_list result ≡ line_for place subframe answer }
{
    match answer {
        Err(refusal) => Some(Line::Fault(PlayerFault::from(RefusedAt { place, refusal }))),
        Ok(Answer::Groups(groups)) => Some(Line::Settled { subframe, groups }),
        Ok(_) => None,
    }
}

/// The line of a call that gives nothing: there is one only where it is refused.
fn refused_line(place: usize, answer: Result<(), Refusal>) -> Option<Line>
    ensures { option_to_list result ≡ line_for place 0 (said answer) }
{
    answer_line(place, 0, answer.map(|()| Answer::Accepted))
}

/// The call of a record that needs no ticket: SET, SHARES, LOSS or COMMAND.
fn plain_call(record: Record) -> Option<Call>
    ensures calls { option_to_list result ≡ plain_calls (content «record».entry) }
    ensures plain { PlainCall result }
{
    match record {
        Record::Set {
            cell,
            loop_kind,
            maximum,
            data_base,
            path_factor,
            control_base,
        } => {
            let settings = RawSettings {
                loop_kind,
                maximum: meaning(maximum),
                data_base: meaning(data_base),
                path_factor,
                control_base: meaning(control_base),
            };
            Some(Call::Set { cell, settings })
        }
        Record::Shares {
            total,
            master,
            secondary,
        } => {
            let shares = RawShares {
                total: meaning(total),
                master,
                secondary,
            };
            Some(Call::Shares { shares })
        }
        Record::Loss { cell, loss } => Some(Call::Loss { cell, loss }),
        Record::Command {
            cell,
            channel,
            code,
        } => {
            let command = RawCommand { channel, code };
            Some(Call::Command { cell, command })
        }
        _ => None,
    }
}

/// A terminal at play, with the ticket of its open subframe, if there is one. The ticket has to be given back, so this has no `Drop`.
pub(crate) struct Playing<R> {
    terminal: Terminal<R>,
    ticket: Option<OpenTicket>,
    ghost mine: { ticket ≡ ticket_of terminal.state },
}

impl<R: HoldingRule> Playing<R> {
    /// A fresh terminal.
    pub(crate) fn new(rule: R) -> Playing<R>
        ensures state { result.terminal.state ≡ fresh }
        ensures rule { result.terminal.rule ≡ rule }
    {
        Playing {
            terminal: Terminal::new(rule),
            ticket: None,
        }
    }

    /// Whether a subframe is open.
    pub(crate) fn is_open(&self) -> bool
        ensures { result ≡ is_open self.now.terminal.state.subframe }
    {
        self.ticket.is_some()
    }

    /// OPEN: a new ticket, unless it is refused.
    fn open(&mut self, place: usize) -> Option<Line>
        ensures { PlaysRecord R.reserve place (numbered OpenKind []) (self.old.terminal.state, self.old.terminal.rule) (self.new.terminal.state, self.new.terminal.rule) result }
    {
        match self.terminal.open() {
            // No ticket was there: OPEN is accepted only where no subframe is open.
            Ok(opened) => match self.ticket.replace(opened) {
                None => None,
                Some(_) => unreachable(),
            },
            Err(refusal) => answer_line(place, 0, Err(refusal)),
        }
    }

    // That a subframe is open stands before WANT, SETTLE and DROP alone: a type for it would be made in `record` and taken apart at once.

    /// WANT, with the ticket of the open subframe.
    fn want(&mut self, place: usize, cell: u32, want: RawWant) -> Option<Line>
        requires { is_open self.old.terminal.state.subframe ≡ true }
        ensures { PlaysCalls R.reserve place (Want self.old.terminal.state.settled cell want ∷ []) (self.old.terminal.state, self.old.terminal.rule) (self.new.terminal.state, self.new.terminal.rule) result }
    {
        let ticket = self.ticket.as_ref().unwrap();
        refused_line(place, self.terminal.want(ticket, cell, want))
    }

    /// SETTLE, GROUPS and DONE, with the ticket of the open subframe: none of them is refused.
    fn settle(&mut self, place: usize) -> Option<Line>
        requires { is_open self.old.terminal.state.subframe ≡ true }
        ensures { PlaysRecord R.reserve place (numbered SettleKind []) (self.old.terminal.state, self.old.terminal.rule) (self.new.terminal.state, self.new.terminal.rule) result }
    {
        let ticket = self.ticket.take().unwrap();
        let subframe = ticket.subframe();
        let settled = self.terminal.settle(ticket).unwrap();
        let groups = self.terminal.groups(&settled).unwrap();
        let _ = self.terminal.done(settled);
        answer_line(place, subframe, Ok(Answer::Groups(groups)))
    }

    /// DROP, with the ticket of the open subframe.
    fn drop_subframe(&mut self, place: usize) -> Option<Line>
        requires { is_open self.old.terminal.state.subframe ≡ true }
        ensures { PlaysRecord R.reserve place (numbered DropKind []) (self.old.terminal.state, self.old.terminal.rule) (self.new.terminal.state, self.new.terminal.rule) result }
    {
        let ticket = self.ticket.take().unwrap();
        refused_line(place, self.terminal.drop_subframe(ticket))
    }

    /// SET, SHARES, LOSS or COMMAND, or no call at all: the ticket stays.
    fn plain(&mut self, place: usize, call: Option<Call>) -> Option<Line>
        requires { PlainCall call }
        ensures { PlaysCalls R.reserve place (option_to_list call) (self.old.terminal.state, self.old.terminal.rule) (self.new.terminal.state, self.new.terminal.rule) result }
    {
        answer_line(place, 0, self.terminal.perform(call?))
    }

    /// A record. W, E and X come only where a subframe is open.
    fn record(&mut self, place: usize, record: Record) -> Option<Line>
        requires { out_of_place (is_open self.old.terminal.state.subframe) (content «record») ≡ false }
        ensures { PlaysRecord R.reserve place (content «record».entry) (self.old.terminal.state, self.old.terminal.rule) (self.new.terminal.state, self.new.terminal.rule) result }
    {
        match record {
            Record::Open => self.open(place),
            Record::Want {
                cell,
                kind,
                class,
                size,
                format,
                offset,
            } => {
                let want = RawWant {
                    kind,
                    class,
                    size,
                    format,
                    offset: meaning(offset),
                };
                self.want(place, cell, want)
            }
            Record::Settle => self.settle(place),
            Record::Drop => self.drop_subframe(place),
            _ => self.plain(place, plain_call(record)),
        }
    }

    /// What was read at a place: a record is played, and a fault is shown. 10, 11 and 12 end the run.
    pub(crate) fn item(
        &mut self,
        place: usize,
        item: Result<Record, RecordFault>,
    ) -> ControlFlow<Line, Option<Line>>
        requires { InPlace (is_open self.old.terminal.state.subframe) (body_read item) }
        ensures { PlaysItem R.reserve place (body_read item.entry) (self.old.terminal.state, self.old.terminal.rule) (self.new.terminal.state, self.new.terminal.rule) result }
    {
        match item {
            Ok(record) => ControlFlow::Continue(self.record(place, record)),
            Err(fault) => {
                let line = Line::Fault(PlayerFault::from(fault));
                if fault.ends_run() {
                    ControlFlow::Break(line)
                } else {
                    ControlFlow::Continue(Some(line))
                }
            }
        }
    }

    /// Drops the subframe that is open, if one is, and gives the terminal back.
    pub(crate) fn end(self) -> Terminal<R>
        ensures { is_open result.state.subframe ≡ false }
    {
        let Playing {
            mut terminal,
            ticket,
        } = self;
        if let Some(ticket) = ticket {
            let _ = terminal.drop_subframe(ticket);
        }
        terminal
    }
}
