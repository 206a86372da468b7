// A level, a whole number of tenths of a dBm, and the power that it stands for in whole nanowatts.

#![tactic(auto)]

ghost use Rattle.std.specs.Prelude.{◌≡◌, ◌<◌, ◌≤◌, min, pos, negsuc, ◌≤ℤ◌, slice_index};
ghost use Rattle.levels.specs.Levels.{LargestMantissas, LargestWholeNanowatts, MantissaTimesPowerOfTen, RisesWithLevel, level_of, mantissas, power, scaled, steps, written_mantissas};

// -60 dBm is one nanowatt, and above 39.9 dBm the power rises no more.
const LOWEST: i64 = -600;

const HIGHEST: i64 = 399;

// Entry r is the largest m with m^100 ≤ 10^(900 + r): the first ten digits of 10^(r/100).
const MANTISSA_TABLE: [u64; 100] = [
    1000000000, 1023292992, 1047128548, 1071519305, 1096478196, 1122018454, 1148153621, 1174897554,
    1202264434, 1230268770, 1258925411, 1288249551, 1318256738, 1348962882, 1380384264, 1412537544,
    1445439770, 1479108388, 1513561248, 1548816618, 1584893192, 1621810097, 1659586907, 1698243652,
    1737800828, 1778279410, 1819700858, 1862087136, 1905460717, 1949844599, 1995262314, 2041737944,
    2089296130, 2137962089, 2187761623, 2238721138, 2290867652, 2344228815, 2398832919, 2454708915,
    2511886431, 2570395782, 2630267991, 2691534803, 2754228703, 2818382931, 2884031503, 2951209226,
    3019951720, 3090295432, 3162277660, 3235936569, 3311311214, 3388441561, 3467368504, 3548133892,
    3630780547, 3715352290, 3801893963, 3890451449, 3981071705, 4073802778, 4168693834, 4265795188,
    4365158322, 4466835921, 4570881896, 4677351412, 4786300923, 4897788193, 5011872336, 5128613839,
    5248074602, 5370317963, 5495408738, 5623413251, 5754399373, 5888436553, 6025595860, 6165950018,
    6309573444, 6456542290, 6606934480, 6760829753, 6918309709, 7079457843, 7244359600, 7413102413,
    7585775750, 7762471166, 7943282347, 8128305161, 8317637711, 8511380382, 8709635899, 8912509381,
    9120108393, 9332543007, 9549925860, 9772372209,
];

/// A power level: a whole number of tenths of a dBm.
#[derive(Clone, Copy, PartialEq, Eq, Debug)]
pub struct Level {
    tenths: i64,
}

impl Level {
    /// The level of `decibels` dBm and `tenths` tenths of a dBm.
    pub fn of(decibels: i32, tenths: i32) -> Level
        ensures { result ≡ level_of decibels tenths }
    {
        Level {
            tenths: in_tenths(decibels, tenths),
        }
    }

    /// The level of so many tenths of a dBm.
    pub fn from_tenths(tenths: i32) -> Level
        ensures { result ≡ level_of (pos 0) tenths }
    {
        Level::of(0, tenths)
    }

    /// The level of so many dBm.
    pub fn from_decibels(decibels: i32) -> Level
        ensures { result ≡ level_of decibels (pos 0) }
    {
        Level::of(decibels, 0)
    }

    /// The level in tenths of a dBm.
    pub fn tenths(self) -> i64
        ensures { result ≡ self.tenths }
    {
        self.tenths
    }

    /// The power in whole nanowatts, rounded down: none below -60 dBm, and above 39.9 dBm what it is there.
    pub fn nanowatts(self) -> u64
        ensures value { result ≡ power self }
        ensures largest_whole_nanowatts { LargestWholeNanowatts self result }
        ensures mantissa_times_power_of_ten { MantissaTimesPowerOfTen self result }
        ensures rises_with_level { RisesWithLevel self result }
        ensures most { result ≤ 9772372209 }
    {
        let Level { tenths } = self;
        if tenths < LOWEST {
            return 0;
        }
        at_step(steps_up(tenths))
    }
}

/// Decibels and tenths together, in tenths.
fn in_tenths(decibels: i32, tenths: i32) -> i64
    ensures { result ≡ (level_of decibels tenths).tenths }
{
    10 * i64::from(decibels) + i64::from(tenths)
}

/// How many tenths a level from -60 dBm on stands above -60 dBm, one above 39.9 dBm as that does.
fn steps_up(tenths: i64) -> usize
    requires { negsuc 599 ≤ℤ tenths }
    ensures { result ≡ min (steps tenths) 999 }
{
    // Not negative, as no level here is below -60 dBm.
    (tenths.min(HIGHEST) - LOWEST) as usize
}

/// The mantissas of one decade of power, ten digits each: entry r is the largest m with m^100 ≤ 10^(900 + r).
pub fn mantissas() -> [u64; 100]
    ensures table { result ≡ mantissas }
    ensures largest_mantissas { LargestMantissas 100 result }
{
    written_table()
}

/// The table as it is written above.
fn written_table() -> [u64; 100]
    ensures { result ≡ written_mantissas }
{
    MANTISSA_TABLE
}

/// One entry of the table.
fn mantissa_at(place: usize) -> u64
    requires { place < 100 }
    ensures { result ≡ slice_index written_mantissas place }
{
    MANTISSA_TABLE[place]
}

/// The power at `step` tenths of a decibel above -60 dBm.
fn at_step(step: usize) -> u64
    requires { step < 1000 }
    ensures { result ≡ scaled 100 mantissas step }
{
    // Below 10, as `step` is below 1000.
    mantissa_at(step % 100) / 10u64.pow(9 - (step / 100) as u32)
}

#[cfg(test)]
mod tests {
    use super::*;

    #[test]
    fn powers_within_the_range(rt: HostRuntime) {
        assert_eq!(rt; Level::from_tenths(-600).nanowatts(), 1);
        assert_eq!(rt; Level::from_tenths(0).nanowatts(), 1_000_000);
        assert_eq!(rt; Level::from_decibels(23).nanowatts(), 199_526_231);
        assert_eq!(rt; Level::of(39, 9).nanowatts(), 9_772_372_209);
    }

    #[test]
    fn powers_outside_the_range(rt: HostRuntime) {
        assert_eq!(rt; Level::from_tenths(-601).nanowatts(), 0);
        assert_eq!(rt; Level::of(i32::MIN, i32::MIN).nanowatts(), 0);
        assert_eq!(rt; Level::from_decibels(40).nanowatts(), 9_772_372_209);
        assert_eq!(rt; Level::of(i32::MAX, i32::MAX).nanowatts(), 9_772_372_209);
    }

    #[test]
    fn tenths_of_a_level(rt: HostRuntime) {
        assert_eq!(rt; Level::of(-5, 3).tenths(), -47);
        assert!(rt; Level::of(23, 0) == Level::from_tenths(230));
    }
}
