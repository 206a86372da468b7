// A recording, printed.
use crate::lines::RecordLine;
use recording::{Fault, Reader, read_through};
use std::io;

/// Prints a line for each record or fault, and then how many there are of each.
pub fn print_listing(rt: &impl Print, recording: &[u8]) -> io::Result<()> {
    let mut reader = Reader::new(recording);
    let mut subframe_open = false;
    let mut place = reader.place();
    // No `for`: each call is told whether a subframe is open. The walk of `read_through` is a loop of its own: that one counts each item, this one prints it on the way, which can fail.
    while let Some(item) = reader.next(subframe_open) {
        match item {
            Ok(record) => {
                rt.println(RecordLine { place, record })?;
                subframe_open = record.leaves_open(subframe_open);
            }
            Err(fault) => {
                rt.println(fault.mark())?;
                if fault.ends_run() {
                    break;
                }
            }
        }
        place = reader.place();
    }
    let counted = read_through(recording);
    let records = counted.records;
    let faults = counted.faults;
    println!(rt; "{records} records, {faults} faults")
}
