// The numbers of a recording.
ghost use Rattle.std.specs.Prelude.{◌≡◌, pos, ◌-ℤ◌};
ghost use Rattle.recording.specs.Numbers.{number_at, number_read, ShortestNumber, ReadExactly, ReadsBack};

use crate::cursor::Cursor;
use crate::parsed::Parsed;
use faults::NumberFault;

/// The number at the front of `bytes`, which lie in the record at `place`.
pub fn read_number<'a>(bytes: &'a [u8], place: usize) -> Result<Parsed<'a, u32>, NumberFault>
    ensures answer { number_read result ≡ number_at place bytes.now }
    ensures read_exactly { ReadExactly place bytes.now (number_read result) }
    ensures shortest_number { ShortestNumber }
    ensures reads_back { ReadsBack place }
{
    let mut cursor = Cursor { place, rest: bytes };
    let value = cursor.read_number()?;
    Ok(Parsed {
        value,
        rest: cursor.rest,
    })
}

/// What a recorded number with 2000 added means.
pub fn meaning(recorded: u32) -> i64
    ensures { result ≡ pos recorded -ℤ pos 2000 }
{
    i64::from(recorded) - 2000
}
