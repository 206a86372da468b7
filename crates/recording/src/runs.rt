// A whole recording, read from its first byte.
ghost use Rattle.std.specs.Prelude.{◌≡◌, ◌+◌, ◌^◌, ◌<◌, OnOk, OnErr};
ghost use Rattle.recording.specs.Runs.{RunsThrough, OnlyRun};

use crate::reader::Reader;
use crate::records::Record;
use faults::{Fault, RecordFault};

/// How many records of a recording are read, how many faults it has, and the fault that ends the run, if one does.
#[derive(Clone, Copy, Debug, PartialEq, Eq)]
pub struct Tally {
    pub records: usize,
    pub faults: usize,
    pub ending: Option<RecordFault>,
}

impl Tally {
    /// Counts a record, or a fault.
    fn count(&mut self, item: Result<Record, RecordFault>)
        requires { self.old.records + self.old.faults + 1 < 2 ^ 64 }
        ensures record_more { OnOk item.entry (self.new ≡ record self.old { records = self.old.records + 1 }) }
        ensures fault_more { OnErr item.entry (self.new ≡ record self.old { faults = self.old.faults + 1 }) }
    {
        match item {
            Ok(_) => self.records += 1,
            Err(_) => self.faults += 1,
        }
    }
}

/// Reads a recording through, to its end or to its first fault of 10, 11 or 12.
pub fn read_through(recording: &[u8]) -> Tally
    ensures runs_through { RunsThrough recording.now result }
    ensures only_run { OnlyRun recording.now result }
{
    let mut reader = Reader::new(recording);
    let mut subframe_open = false;
    let mut tally = Tally {
        records: 0,
        faults: 0,
        ending: None,
    };
    // No `for`: each call is told whether a subframe is open. The walk of `print_listing` is a loop of its own: this one counts each item, that one prints it on the way, which can fail.
    while let Some(item) = reader.next(subframe_open) {
        tally.count(item);
        match item {
            Ok(record) => subframe_open = record.leaves_open(subframe_open),
            Err(fault) => {
                if fault.ends_run() {
                    return Tally {
                        ending: Some(fault),
                        ..tally
                    };
                }
            }
        }
    }
    tally
}
