// What a cell is set to, and the range of each setting.
ghost use Rattle.std.specs.Prelude.{◌≡◌, ◌∷◌, nat_lt};
ghost use Rattle.refusals.specs.declared.Refusal.TheVariants.{OutOfRange};
ghost use Rattle.refusals.specs.First.{when};
ghost use Rattle.refusals.specs.Numbers.{StandsFor};
ghost use Rattle.cells.specs.Numbers.{loop_kind_number};
ghost use Rattle.cells.specs.Ranges.{outside, is_path_factor, settings_conditions, SettingsChecked};

use levels::Level;
use refusals::{Refusal, refuse_first};

/// How a data loop takes a command. Each discriminant is the number of the kind.
#[derive(Clone, Copy, PartialEq, Eq)]
pub enum LoopKind {
    /// The step is added to the loop.
    Accumulating = 0,
    /// The step becomes the loop's value.
    Absolute = 1,
}

/// What a cell is set to: its maximum level, the bases of data and control in dBm, and the path factor in tenths.
#[derive(Clone, Copy)]
pub struct Settings {
    pub loop_kind: LoopKind,
    pub maximum: Level,
    pub data_base: i16,
    pub path_factor: u8,
    pub control_base: i16,
}

/// Settings as a call brings them. The maximum is in tenths of a dBm.
// Plain numbers, for a call may bring any: `TryFrom` reads or refuses them, in the order of the refusals.
#[derive(Clone, Copy)]
pub struct RawSettings {
    pub loop_kind: u32,
    pub maximum: i64,
    pub data_base: i64,
    pub path_factor: u32,
    pub control_base: i64,
}

// By hand: no derive reads an enum from its discriminants.
impl TryFrom<u32> for LoopKind {
    type Error = Refusal;

    ghost try_from_gives = { StandsFor loop_kind_number 0 1 };

    /// The kind of a number. Refused where it is above 1.
    fn try_from(number: u32) -> Result<LoopKind, Refusal> {
        match number {
            0 => Ok(LoopKind::Accumulating),
            1 => Ok(LoopKind::Absolute),
            _ => Err(Refusal::OutOfRange),
        }
    }
}

/// Whether a value lies below `low` or above `high`.
// A function of its own: with three calls of `contains` in `conditions` the proof is not found.
fn is_outside(low: i64, high: i64, value: i64) -> bool
    ensures { result ≡ outside low high value }
{
    !(low..=high).contains(&value)
}

/// Whether the path factor is 0, or 0.4 to 1.0 in tenths.
fn is_path_factor(factor: u32) -> bool
    ensures { result ≡ is_path_factor factor }
{
    factor == 0 || (4..=10).contains(&factor)
}

/// Where the settings of a call are refused, whatever their kind.
fn conditions(raw: RawSettings) -> [Option<Refusal>; 4]
    ensures { when (nat_lt 1 raw.loop_kind) OutOfRange ∷ result ≡ settings_conditions raw }
{
    [
        Refusal::OutOfRange.when(is_outside(-400, 330, raw.maximum)),
        Refusal::OutOfRange.when(is_outside(-134, 31, raw.data_base)),
        Refusal::OutOfRange.when(!is_path_factor(raw.path_factor)),
        Refusal::OutOfRange.when(is_outside(-135, -89, raw.control_base)),
    ]
}

impl TryFrom<RawSettings> for Settings {
    type Error = Refusal;

    ghost try_from_gives = { SettingsChecked };

    /// The settings that a call brings. Refused where one of them is out of its range.
    fn try_from(raw: RawSettings) -> Result<Settings, Refusal> {
        let loop_kind = LoopKind::try_from(raw.loop_kind)?;
        refuse_first(&conditions(raw))?;
        // In range: tested above.
        Ok(Settings {
            loop_kind,
            maximum: Level::from_tenths(raw.maximum as i32),
            data_base: raw.data_base as i16,
            path_factor: raw.path_factor as u8,
            control_base: raw.control_base as i16,
        })
    }
}
