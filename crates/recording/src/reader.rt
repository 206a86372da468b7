// A recording, read one record a call.
ghost use Rattle.std.specs.Prelude.{◌≡◌, length};
ghost use Rattle.recording.specs.Records.{body_read};
ghost use Rattle.recording.specs.Whole.{record_read};
ghost use Rattle.recording.specs.Reading.{admitted, next_read, next_answer, next_offset, Forward, NextExactly};

use crate::parsed::Parsed;
use crate::records::{Record, read_record};
use faults::{LayoutFaultKind, RecordFault};

/// A recording, and the offset of the record that is read next.
#[derive(Clone, Copy)]
pub struct Reader<'a> {
    recording: &'a [u8],
    offset: usize,
}

impl<'a> Reader<'a> {
    /// A reader at the first byte of the recording.
    pub fn new(recording: &'a [u8]) -> Reader<'a>
        ensures whole { result.recording.now ≡ recording.now }
        ensures start { result.offset ≡ 0 }
    {
        Reader {
            recording,
            offset: 0,
        }
    }

    /// The place of the record that is read next.
    pub fn place(&self) -> usize
        ensures { result ≡ self.now.offset }
    {
        self.offset
    }

    /// The next record or its fault, or `None` at the end. After 13 the reader stands behind the record, after 10, 11 and 12 where it was.
    pub fn next(&mut self, subframe_open: bool) -> Option<Result<Record<'a>, RecordFault>>
        ensures same { self.new.recording.now ≡ self.old.recording.now }
        ensures answer { next_read result ≡ next_answer self.old.recording.now self.old.offset subframe_open }
        ensures stands_after { self.new.offset ≡ next_offset self.old.recording.now self.old.offset }
        ensures forward { Forward result self.old.offset self.new.offset (length self.old.recording.now) }
        ensures next_exactly { NextExactly self.old.recording.now self.old.offset subframe_open (next_read result) self.new.offset }
    {
        let Reader { recording, offset } = self;
        let place = *offset;
        if place >= recording.len() {
            return None;
        }
        let read = read_record(&recording[place..], place);
        if let Ok(read) = &read {
            *offset = recording.len() - read.rest.len();
        }
        Some(admitted(read, place, subframe_open))
    }
}

/// What is answered of what was read at a place: 13 comes last, for a record that needs an open subframe where none is open.
fn admitted<'a>(
    read: Result<Parsed<'a, Record<'a>>, RecordFault>,
    place: usize,
    subframe_open: bool,
) -> Result<Record<'a>, RecordFault>
    ensures { body_read result ≡ admitted place subframe_open (record_read read.entry) }
{
    let record = read?.value;
    if record.out_of_place(subframe_open) {
        return Err(LayoutFaultKind::NoOpenSubframe.at(place));
    }
    Ok(record)
}
