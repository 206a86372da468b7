// Recordings with their faults, as one table, and the edges of numbers and notes.

#![tactic(auto)]

#[cfg(test)]
mod tests {
    use recording::*;
    use std::test::Fail;

    // The number of the first fault of a recording in which no subframe is open, or 0.
    fn first_fault(recording: &[u8]) -> u8 {
        match Reader::new(recording).next(false) {
            Some(Err(fault)) => fault.number(),
            _ => 0,
        }
    }

    #[test]
    fn faults_of_a_record(rt: HostRuntime) {
        let table: [(&[u8], u8); 20] = [
            (b"\x80", 10),
            (b"\x80\x00", 11),
            (b"\x80\x80\x80\x80\x80", 11),
            (b"\x01Z", 12),
            (b"\x00", 12),
            (b"\x01X", 13),
            (b"\x02Z", 10),
            (b"\x02E\x00", 12),
            (b"\x01W", 10),
            (b"\x05L\x80\x80\x80\x80", 10),
            (b"\x06L\x80\x80\x80\x80\x80", 11),
            (b"\x02L\x80\x01O", 10),
            (b"\x02N\x1f", 12),
            (b"\x02N\x20", 0),
            (b"\x02N\x7e", 0),
            (b"\x02N\x7f", 12),
            (b"\x07L\x00\xff\xff\xff\xff\x0f", 0),
            (b"\x07L\x00\x80\x80\x80\x80\x10", 11),
            (b"\x08L\x00\xff\xff\xff\xff\x8f\x00", 11),
            (b"\x01O", 0),
        ];
        for (recording, number) in table {
            assert_eq!(rt; first_fault(recording), number);
        }
    }
    // Four records: three bytes of a note, a want out of place, an OPEN and a DROP.
    const RECORDING: &[u8] = b"\x03Nhi\x08W\x00\x01\x03\x0a\x00\xd0\x0f\x01O\x01X";

    #[test]
    fn cut_at_every_byte(rt: HostRuntime) {
        // Each length from none to all, and not each byte.
        for cut in 0..=RECORDING.len() {
            let tally = read_through(&RECORDING[..cut]);
            let number = tally.ending.map_or(0, |fault| fault.number());
            let between_records = matches!(cut, 0 | 4 | 13 | 15 | 17);
            assert_eq!(rt; number, if between_records { 0 } else { 10 });
        }
    }

    #[test]
    fn reads_on_behind_13(rt: HostRuntime) -> Result<(), Fail> {
        let mut reader = Reader::new(RECORDING);
        assert!(rt; matches!(reader.next(false), Some(Ok(Record::Note { text: b"hi" }))));
        let Some(Err(fault)) = reader.next(false) else {
            return Err(Fail::new("a want where no subframe is open"));
        };
        assert_eq!(rt; fault.place(), 4);
        assert_eq!(rt; char::from(fault.layer()), 'R');
        assert_eq!(rt; fault.number(), 13);
        assert!(rt; !fault.ends_run());
        assert_eq!(rt; reader.place(), 13);
        assert!(rt; matches!(reader.next(false), Some(Ok(Record::Open))));
        assert!(rt; matches!(reader.next(true), Some(Ok(Record::Drop))));
        assert!(rt; matches!(reader.next(false), None));
        Ok(())
    }

    #[test]
    fn counts_records_and_faults(rt: HostRuntime) {
        let tally = read_through(RECORDING);
        assert_eq!(rt; tally.records, 3);
        assert_eq!(rt; tally.faults, 1);
        let mut reader = Reader::new(b"\x05L\x07\xac\x02\x00");
        assert!(rt; matches!(reader.next(true), Some(Err(_))));
        assert_eq!(rt; reader.place(), 0);
        assert_eq!(rt; meaning(1940), -60);
    }
}
