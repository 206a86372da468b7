// A record is a length and a body of that many bytes: a letter, and its numbers or a note's text.
ghost use Rattle.std.specs.Prelude.{◌≡◌};
ghost use Rattle.recording.specs.declared.kinds.RecordKind.TheVariants.{Set as SetKind, Shares as SharesKind, Loss as LossKind, Command as CommandKind, Want as WantKind};
ghost use Rattle.recording.specs.Contents.{numbered, content, content_kind, out_of_place, open_after};
ghost use Rattle.recording.specs.Records.{is_printable, text_at, body_read, body_at, record_at, RecordExactly};
ghost use Rattle.recording.specs.Whole.{record_read};

use crate::cursor::Cursor;
use crate::kinds::RecordKind;
use crate::parsed::Parsed;
use faults::{LayoutFaultKind, RecordFault};

/// A record, with its numbers as they stand in the recording.
// Kinds, classes and codes are plain numbers here: a recording may hold any number, is listed as it stands, and the terminal refuses what it does not know.
#[derive(Clone, Copy, Debug, PartialEq, Eq)]
pub enum Record<'a> {
    Set {
        cell: u32,
        loop_kind: u32,
        maximum: u32,
        data_base: u32,
        path_factor: u32,
        control_base: u32,
    },
    Shares {
        total: u32,
        master: u32,
        secondary: u32,
    },
    Loss {
        cell: u32,
        loss: u32,
    },
    Command {
        cell: u32,
        channel: u32,
        code: u32,
    },
    Open,
    Want {
        cell: u32,
        kind: u32,
        class: u32,
        size: u32,
        format: u32,
        offset: u32,
    },
    Settle,
    Drop,
    Note {
        text: &'a [u8],
    },
}

impl<'a> Record<'a> {
    pub fn kind(self) -> RecordKind
        ensures { result ≡ content_kind (content self.entry) }
    {
        match self {
            Record::Set { .. } => RecordKind::Set,
            Record::Shares { .. } => RecordKind::Shares,
            Record::Loss { .. } => RecordKind::Loss,
            Record::Command { .. } => RecordKind::Command,
            Record::Open => RecordKind::Open,
            Record::Want { .. } => RecordKind::Want,
            Record::Settle => RecordKind::Settle,
            Record::Drop => RecordKind::Drop,
            Record::Note { .. } => RecordKind::Note,
        }
    }

    /// Whether the record needs an open subframe and none is open.
    pub(crate) fn out_of_place(self, subframe_open: bool) -> bool
        ensures { result ≡ out_of_place subframe_open (content self.entry) }
    {
        let needs_open = matches!(
            self.kind(),
            RecordKind::Want | RecordKind::Settle | RecordKind::Drop
        );
        needs_open && !subframe_open
    }

    /// Whether a subframe is open after the record: OPEN opens one, SETTLE and DROP end it.
    pub fn leaves_open(self, subframe_open: bool) -> bool
        ensures { result ≡ open_after subframe_open (content self.entry) }
    {
        match self.kind() {
            RecordKind::Open => true,
            RecordKind::Settle | RecordKind::Drop => false,
            _ => subframe_open,
        }
    }
}

// A function for each kind of record with numbers: with all of them in it, `read_body` would have over 40 lines.
fn set_record<'a>(numbers: [u32; 6]) -> Record<'a>
    ensures { content result ≡ numbered SetKind numbers }
{
    let [
        cell,
        loop_kind,
        maximum,
        data_base,
        path_factor,
        control_base,
    ] = numbers;
    Record::Set {
        cell,
        loop_kind,
        maximum,
        data_base,
        path_factor,
        control_base,
    }
}

fn shares_record<'a>(numbers: [u32; 3]) -> Record<'a>
    ensures { content result ≡ numbered SharesKind numbers }
{
    let [total, master, secondary] = numbers;
    Record::Shares {
        total,
        master,
        secondary,
    }
}

fn loss_record<'a>(numbers: [u32; 2]) -> Record<'a>
    ensures { content result ≡ numbered LossKind numbers }
{
    let [cell, loss] = numbers;
    Record::Loss { cell, loss }
}

fn command_record<'a>(numbers: [u32; 3]) -> Record<'a>
    ensures { content result ≡ numbered CommandKind numbers }
{
    let [cell, channel, code] = numbers;
    Record::Command {
        cell,
        channel,
        code,
    }
}

fn want_record<'a>(numbers: [u32; 6]) -> Record<'a>
    ensures { content result ≡ numbered WantKind numbers }
{
    let [cell, kind, class, size, format, offset] = numbers;
    Record::Want {
        cell,
        kind,
        class,
        size,
        format,
        offset,
    }
}

/// Whether each byte is a printable character of ASCII.
fn is_text(bytes: &[u8]) -> bool
    ensures { result ≡ is_printable bytes.now }
{
    bytes.iter().all(|byte| (b' '..=b'~').contains(byte))
}

/// The note that has these bytes for its text.
fn read_note<'a>(text: Cursor<'a>) -> Result<Record<'a>, RecordFault>
    ensures { body_read result ≡ text_at text.entry.place text.entry.rest.now }
{
    if is_text(text.rest) {
        Ok(Record::Note { text: text.rest })
    } else {
        Err(LayoutFaultKind::BadBody.at(text.place))
    }
}

/// The record that a whole body holds.
fn read_body<'a>(body: Cursor<'a>) -> Result<Record<'a>, RecordFault>
    ensures { body_read result ≡ body_at body.entry.place body.entry.rest.now }
{
    let bad_body = LayoutFaultKind::BadBody.at(body.place);
    // A slice pattern: with `read_byte` the goals on what is left stay open.
    let [letter, rest @ ..] = body.rest else {
        return Err(bad_body);
    };
    let Ok(kind) = RecordKind::try_from(*letter) else {
        return Err(bad_body);
    };
    let after = Cursor { rest, ..body };
    match kind {
        RecordKind::Set => Ok(set_record(after.read_numbers()?)),
        RecordKind::Shares => Ok(shares_record(after.read_numbers()?)),
        RecordKind::Loss => Ok(loss_record(after.read_numbers()?)),
        RecordKind::Command => Ok(command_record(after.read_numbers()?)),
        RecordKind::Open => after.end().map(|()| Record::Open),
        RecordKind::Want => Ok(want_record(after.read_numbers()?)),
        RecordKind::Settle => after.end().map(|()| Record::Settle),
        RecordKind::Drop => after.end().map(|()| Record::Drop),
        RecordKind::Note => read_note(after),
    }
}

/// The record at the front of `bytes`, which begin at `place`, in whatever order records may stand.
pub fn read_record<'a>(bytes: &'a [u8], place: usize) -> Result<Parsed<'a, Record<'a>>, RecordFault>
    ensures answer { record_read result ≡ record_at place bytes.now }
    ensures record_exactly { RecordExactly place bytes.now (record_read result) }
{
    let mut cursor = Cursor { place, rest: bytes };
    let size = cursor.read_number()?;
    // A `usize` has no `From<u32>`.
    let body = cursor.read_part(size as usize)?;
    Ok(Parsed {
        value: read_body(body)?,
        rest: cursor.rest,
    })
}
