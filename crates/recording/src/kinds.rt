// The kinds of record.
ghost use Rattle.std.specs.Prelude.{◌≡◌};
ghost use Rattle.recording.specs.Kinds.{letter_of};

/// What a record is, by its letter.
#[derive(Clone, Copy, Debug, PartialEq, Eq)]
pub enum RecordKind {
    Set = 0x43,
    Shares = 0x53,
    Loss = 0x4c,
    Command = 0x54,
    Open = 0x4f,
    Want = 0x57,
    /// SETTLE, GROUPS and DONE.
    Settle = 0x45,
    Drop = 0x58,
    Note = 0x4e,
}

/// A letter that no kind of record has.
#[derive(Clone, Copy, Debug, PartialEq, Eq)]
pub struct UnknownLetter(pub u8);

/// The letter that stands first in the body of such a record.
impl From<RecordKind> for u8 {
    ghost from_gives = { λ kind letter. letter ≡ letter_of kind };

    fn from(kind: RecordKind) -> u8 {
        // A discriminant: no `From` gives it.
        kind as u8
    }
}

/// The kind of record that has this letter.
impl TryFrom<u8> for RecordKind {
    ghost use Rattle.recording.specs.Letters.{Decodes};

    type Error = UnknownLetter;

    ghost try_from_gives = { Decodes };

    fn try_from(letter: u8) -> Result<RecordKind, UnknownLetter> {
        // Written out, since a cast goes only from a kind to its letter.
        match letter {
            b'C' => Ok(RecordKind::Set),
            b'S' => Ok(RecordKind::Shares),
            b'L' => Ok(RecordKind::Loss),
            b'T' => Ok(RecordKind::Command),
            b'O' => Ok(RecordKind::Open),
            b'W' => Ok(RecordKind::Want),
            b'E' => Ok(RecordKind::Settle),
            b'X' => Ok(RecordKind::Drop),
            b'N' => Ok(RecordKind::Note),
            _ => Err(UnknownLetter(letter)),
        }
    }
}
