// Refusals of the layers below the terminal, and splits at their limits.
use refusals::Refusal;
use sharing::{Budget, guarantee};
use split::{DataClaim, MAX_NANOWATTS, SoundingClaim, split};
use std::test::Fail;

#[test]
fn budgets(rt: HostRuntime) {
    assert_eq!(rt; Budget::new(MAX_NANOWATTS, 60, 40).err(), None);
    assert_eq!(rt;
        Budget::new(MAX_NANOWATTS + 1, 60, 40).err(),
        Some(Refusal::OutOfRange)
    );
    assert_eq!(rt; Budget::new(0, 101, 0).err(), Some(Refusal::OutOfRange));
    assert_eq!(rt; Budget::new(0, 0, 101).err(), Some(Refusal::OutOfRange));
    assert_eq!(rt;
        Budget::new(0, 60, 41).err(),
        Some(Refusal::PercentagesAbove100)
    );
    assert_eq!(rt; guarantee(199_526_231, 101), Err(Refusal::OutOfRange));
    assert_eq!(rt; Refusal::PercentagesAbove100.number(), 7);
}

#[test]
fn splits_at_their_limits(rt: HostRuntime) -> Result<(), Fail> {
    let mut claims = [DataClaim {
        want: MAX_NANOWATTS,
        granted: 0,
    }; 8];
    split(&mut claims, MAX_NANOWATTS)?;
    assert_eq!(rt; claims[0].granted, 249_407_790);
    assert_eq!(rt; claims[1].granted, 249_407_790);
    assert_eq!(rt; claims[2].granted, 249_407_789);
    Ok(())
}

#[test]
fn refused_splits_change_nothing(rt: HostRuntime) {
    let mut nine = [SoundingClaim {
        want: 1,
        granted: 7,
    }; 9];
    assert_eq!(rt; split(&mut nine, 10), Err(Refusal::OutOfRange));
    assert_eq!(rt; nine[8].granted, 7);
    let mut above = [DataClaim {
        want: MAX_NANOWATTS + 1,
        granted: 7,
    }];
    assert_eq!(rt; split(&mut above, 10), Err(Refusal::OutOfRange));
    assert_eq!(rt; above[0].granted, 7);
    let mut one = [DataClaim {
        want: 1,
        granted: 7,
    }];
    assert_eq!(rt;
        split(&mut one, MAX_NANOWATTS + 1),
        Err(Refusal::OutOfRange)
    );
    assert_eq!(rt; one[0].granted, 7);
}
