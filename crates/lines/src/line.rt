// A line of what is printed, as a value and as text.
ghost use Rattle.std.specs.Prelude.{Some};
ghost use Rattle.lines.specs.Text.{line_words};

use crate::fault::PlayerFault;
use faults::Fault;
use settling::GroupPowers;
use std::fmt;

/// A line: a settled subframe with what both groups wanted and were granted, or a fault.
#[derive(Clone, Copy)]
pub enum Line {
    Settled { subframe: u32, groups: GroupPowers },
    Fault(PlayerFault),
}

/// A subframe, and what the master and then the secondary group wanted and was granted; or the mark of a fault.
impl fmt::Display for Line {
    ghost output = { λ line. Some (line_words line) };

    fn fmt<W: fmt::Write>(&self, f: &mut fmt::Formatter<W>) -> fmt::Result {
        match *self {
            Line::Settled { subframe, groups } => {
                let master_wanted = groups.master.wanted;
                let master_granted = groups.master.granted;
                let secondary_wanted = groups.secondary.wanted;
                let secondary_granted = groups.secondary.granted;
                write!(
                    f,
                    "{subframe} {master_wanted} {master_granted} {secondary_wanted} {secondary_granted}"
                )
            }
            Line::Fault(fault) => {
                let mark = fault.mark();
                write!(f, "{mark}")
            }
        }
    }
}
