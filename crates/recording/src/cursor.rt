// The bytes of a record, read one after another. A number is groups of seven bits, lowest group first, the top bit set on all bytes but the last.
ghost use Rattle.std.specs.Prelude.{◌≡◌, ◌<◌, ◌≤◌, [], ◌∷◌, length, take, drop, IfErr, IfOk, MatchResult};
ghost use Rattle.faults.specs.Faults.{truncated_number, bad_body};
ghost use Rattle.recording.specs.Numbers.{joined_number, with_rest, groups, number_at};
ghost use Rattle.recording.specs.Records.{numbers_at};

use faults::{LayoutFaultKind, NumberFault, NumberFaultKind, RecordFault};

/// The bytes that are still to be read, and the place of the record that they lie in.
#[derive(Clone, Copy)]
pub(crate) struct Cursor<'a> {
    pub(crate) place: usize,
    pub(crate) rest: &'a [u8],
}

impl<'a> Cursor<'a> {
    /// The next byte.
    fn read_byte(&mut self) -> Result<u8, NumberFault>
        ensures same_place { self.new.place ≡ self.old.place }
        ensures read { IfOk result (λ byte. self.old.rest.now ≡ byte ∷ self.new.rest.now) }
        ensures none { IfErr result (λ fault. (fault ≡ truncated_number self.old.place) × (self.old.rest.now ≡ [])) }
    {
        let first = self.rest.split_off_first();
        first
            .copied()
            .ok_or(NumberFaultKind::Truncated.at(self.place))
    }

    /// The number of a lowest group and the number that the groups above it hold. It is not in its shortest form where those hold 0.
    fn joined(&self, above: u32, low: u8) -> Result<u32, NumberFault>
        ensures { result ≡ joined_number self.now.place low above }
    {
        let value = u64::from(above) * 128 + u64::from(low);
        match u32::try_from(value) {
            Ok(value) if above != 0 => Ok(value),
            _ => Err(NumberFaultKind::Malformed.at(self.place)),
        }
    }

    /// The number of at most `left` groups.
    fn read_groups(&mut self, left: u8) -> Result<u32, NumberFault>
        ensures same_place { self.new.place ≡ self.old.place }
        ensures answer { with_rest self.new.rest.now result ≡ groups self.old.place left self.old.rest.now }
    {
        if left == 0 {
            return Err(NumberFaultKind::Malformed.at(self.place));
        }
        let group = self.read_byte()?;
        if group < 128 {
            return Ok(u32::from(group));
        }
        let above = self.read_groups(left - 1)?;
        self.joined(above, group - 128)
    }

    /// The next number: it has at most five groups.
    pub(crate) fn read_number(&mut self) -> Result<u32, NumberFault>
        ensures same_place { self.new.place ≡ self.old.place }
        ensures answer { with_rest self.new.rest.now result ≡ number_at self.old.place self.old.rest.now }
    {
        // Most numbers have one group: those are read here, with no call.
        match self.rest {
            [group, rest @ ..] if *group < 128 => {
                self.rest = rest;
                Ok(u32::from(*group))
            }
            _ => self.read_groups(5),
        }
    }

    /// The next `size` bytes.
    pub(crate) fn read_part(&mut self, size: usize) -> Result<Cursor<'a>, NumberFault>
        ensures same_place { self.new.place ≡ self.old.place }
        ensures part { IfOk result (λ part. part.rest.now ≡ take size self.old.rest.now) }
        ensures part_place { IfOk result (λ part. part.place ≡ self.old.place) }
        ensures after { IfOk result (λ _. self.new.rest.now ≡ drop size self.old.rest.now) }
        ensures fits { IfOk result (λ _. size ≤ length self.old.rest.now) }
        ensures short { IfErr result (λ fault. (fault ≡ truncated_number self.old.place) × (length self.old.rest.now < size)) }
    {
        let Some(rest) = self.rest.split_off(..size) else {
            return Err(NumberFaultKind::Truncated.at(self.place));
        };
        Ok(Cursor { rest, ..*self })
    }

    /// Whether all bytes were read; bytes that are left over are a fault.
    pub(crate) fn end(self) -> Result<(), RecordFault>
        ensures { MatchResult result (λ _. self.entry.rest.now ≡ []) (λ fault. (fault ≡ bad_body self.entry.place) × (0 < length self.entry.rest.now)) }
    {
        if self.rest.is_empty() {
            Ok(())
        } else {
            Err(LayoutFaultKind::BadBody.at(self.place))
        }
    }

    /// The `N` numbers that the bytes are, with nothing after them.
    pub(crate) fn read_numbers<const N: usize>(mut self) -> Result<[u32; N], RecordFault>
        ensures { result ≡ numbers_at self.entry.place N self.entry.rest.now }
    {
        let mut values = [0; N];
        for value in values.iter_mut() {
            *value = self.read_number()?;
        }
        self.end()?;
        Ok(values)
    }
}
