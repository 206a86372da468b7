// The line of a record.
ghost use Rattle.std.specs.Prelude.{◌≡◌, ◌==◌, IfSome, Some};
ghost use Rattle.std.specs.List.{list_all};
ghost use Rattle.std.specs.Fmt.{DisplaysOnOk};
ghost use Rattle.recording.specs.declared.records.Record.TheVariants.{Shares, Want};
ghost use Rattle.listing.specs.Lines.{shown_byte, shown_text, meant, bases_text, record_words, record_line};

use recording::{Record, meaning};
use std::fmt;

fn shown_char(byte: u8) -> char
    ensures { result ≡ shown_byte byte }
{
    match byte {
        b' '..=b'~' => char::from(byte),
        _ => '?',
    }
}

/// Whether each byte is shown as it is.
fn shows_all(bytes: &[u8]) -> bool
    ensures { result ≡ list_all (λ b. shown_byte b == b) bytes.now }
{
    bytes
        .iter()
        .all(|byte| shown_char(*byte) == char::from(*byte))
}

/// A note's text as it stands, where each of its bytes is shown as it is.
#[tactic(auto, using(crate::proofs::Shown::as_it_stands))]
fn shown_whole(bytes: &[u8]) -> Option<&str>
    ensures { IfSome result (λ text. text.now ≡ shown_text bytes.now) }
{
    match str::from_utf8(bytes) {
        Ok(text) if shows_all(bytes) => Some(text),
        _ => None,
    }
}

/// A note's text; a byte that is not printable is shown as `?`.
#[derive(Clone, Copy)]
struct NoteText<'a>(&'a [u8]);

impl fmt::Display for NoteText<'_> {
    ghost output = { λ note. Some (shown_text note.0.now) };

    fn fmt<W: fmt::Write>(&self, f: &mut fmt::Formatter<W>) -> fmt::Result {
        // So is every note that was read: its text is written at once.
        if let Some(text) = shown_whole(self.0) {
            return f.write_str(text);
        }
        for byte in self.0 {
            f.write_char(shown_char(*byte))?;
        }
        Ok(())
    }
}

/// What a recorded number with 2000 added means.
#[derive(Clone, Copy)]
struct Meant(u32);

impl fmt::Display for Meant {
    ghost output = { λ number. Some (meant number.0) };

    fn fmt<W: fmt::Write>(&self, f: &mut fmt::Formatter<W>) -> fmt::Result {
        let means = meaning(self.0);
        write!(f, "{means}")
    }
}

/// What a SET says after its cell and its loop kind: the maximum, both bases, and the path factor between them.
fn write_bases<W: fmt::Write>(
    f: &mut fmt::Formatter<W>,
    maximum: u32,
    data_base: u32,
    path_factor: u32,
    control_base: u32,
) -> fmt::Result
    ensures { DisplaysOnOk W.Write.write_str_gives f.old result (Some (bases_text maximum data_base path_factor control_base)) f.new }
{
    let maximum = Meant(maximum);
    let data_base = Meant(data_base);
    let control_base = Meant(control_base);
    write!(
        f,
        ", maximum {maximum}, data base {data_base}, path factor {path_factor}, control base {control_base}"
    )
}

fn write_shares<W: fmt::Write>(
    f: &mut fmt::Formatter<W>,
    total: u32,
    master: u32,
    secondary: u32,
) -> fmt::Result
    ensures { DisplaysOnOk W.Write.write_str_gives f.old result (Some (record_words (Shares total master secondary))) f.new }
{
    let total = Meant(total);
    write!(
        f,
        "SHARES total {total}, master {master}, secondary {secondary}"
    )
}

fn write_want<W: fmt::Write>(
    f: &mut fmt::Formatter<W>,
    cell: u32,
    kind: u32,
    class: u32,
    size: u32,
    format: u32,
    offset: u32,
) -> fmt::Result
    ensures { DisplaysOnOk W.Write.write_str_gives f.old result (Some (record_words (Want cell kind class size format offset))) f.new }
{
    let offset = Meant(offset);
    write!(f, "WANT cell {cell}, kind {kind}, class {class}")?;
    write!(f, ", size {size}, format {format}, offset {offset}")
}

/// A record's name, and its numbers by name, those with 2000 added as what they mean.
#[derive(Clone, Copy)]
struct Words<'a>(Record<'a>);

impl fmt::Display for Words<'_> {
    ghost output = { λ words. Some (record_words words.0) };

    fn fmt<W: fmt::Write>(&self, f: &mut fmt::Formatter<W>) -> fmt::Result {
        match self.0 {
            Record::Set {
                cell,
                loop_kind,
                maximum,
                data_base,
                path_factor,
                control_base,
            } => {
                write!(f, "SET cell {cell}, loop kind {loop_kind}")?;
                write_bases(f, maximum, data_base, path_factor, control_base)
            }
            Record::Shares {
                total,
                master,
                secondary,
            } => write_shares(f, total, master, secondary),
            Record::Loss { cell, loss } => write!(f, "LOSS cell {cell}, loss {loss}"),
            Record::Command {
                cell,
                channel,
                code,
            } => write!(f, "COMMAND cell {cell}, channel {channel}, code {code}"),
            Record::Open => write!(f, "OPEN"),
            Record::Want {
                cell,
                kind,
                class,
                size,
                format,
                offset,
            } => write_want(f, cell, kind, class, size, format, offset),
            Record::Settle => write!(f, "SETTLE, GROUPS, DONE"),
            Record::Drop => write!(f, "DROP"),
            Record::Note { text } => write!(f, "NOTE {}", NoteText(text)),
        }
    }
}

/// The line of a record at a place: the place, and what the record says.
#[derive(Clone, Copy)]
pub struct RecordLine<'a> {
    pub place: usize,
    pub record: Record<'a>,
}

impl fmt::Display for RecordLine<'_> {
    ghost output = { λ line. Some (record_line line.place line.«record») };

    fn fmt<W: fmt::Write>(&self, f: &mut fmt::Formatter<W>) -> fmt::Result {
        let place = self.place;
        let words = Words(self.record);
        write!(f, "{place} {words}")
    }
}
