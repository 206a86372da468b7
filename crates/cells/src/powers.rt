// The levels of a cell, and the powers that it wants in whole nanowatts.
ghost use Rattle.std.specs.Prelude.{◌≡◌, ◌*◌, ◌≤◌, pos, ◌+ℤ◌, Some};
ghost use Rattle.levels.specs.Levels.{level_of};
ghost use Rattle.cells.specs.declared.wants.Want.TheVariants.{Data};
ghost use Rattle.cells.specs.WantRanges.{WantInRange};
ghost use Rattle.cells.specs.Powers.{data_values, control_values, data_level, sounding_offset, sounding_level, open_loop_decibels, offset_or_none, format_tenths, tenths_of, power_of, control_level, raw_data, raw_control, raw_sounding, control_power, data_power, sounding_power, wanted_with, wanted_powers};
ghost use Rattle.cells.specs.Promises.{CloseBelowExact, DataCloseBelowExact, WithinMaximum};

use crate::cell::Cell;
use crate::settings::Settings;
use crate::wants::{CellWants, ControlFormat, ControlWant, DataWant, SoundingWant};
use levels::Level;

/// What the data level of a cell is made from: the base in dBm, the path factor in tenths, the path loss in dB, and the loop in dB.
#[derive(Clone, Copy)]
pub struct DataValues {
    pub base: i16,
    pub factor: u8,
    pub loss: u8,
    pub adjustment: i16,
}

/// What the control level of a cell is made from before any offset: the base in dBm, the path loss in dB, and the loop in dB.
#[derive(Clone, Copy)]
pub(crate) struct ControlValues {
    base: i16,
    loss: u8,
    adjustment: i16,
}

/// The powers that a cell wants in a subframe, in nanowatts.
#[derive(Clone, Copy)]
pub struct Powers {
    pub control: u64,
    pub data: u64,
    pub sounding: u64,
}

impl Powers {
    /// Nothing is wanted.
    pub const NONE: Powers = Powers {
        control: 0,
        data: 0,
        sounding: 0,
    };
}

impl DataValues {
    /// The values of a cell with these settings, its loop as it stands.
    pub(crate) fn of(settings: Settings, cell: &Cell) -> DataValues
        ensures { result ≡ data_values settings cell.now }
    {
        DataValues {
            base: settings.data_base,
            factor: settings.path_factor,
            loss: cell.loss,
            adjustment: cell.data_loop,
        }
    }

    /// The part of the path loss that the path factor makes up for, in tenths of a decibel.
    fn part_of_loss(self) -> u16
        ensures { result ≡ self.factor * self.loss }
    {
        u16::from(self.factor) * u16::from(self.loss)
    }

    /// The data level with so many tenths of a decibel more.
    fn level_above(self, tenths: i16) -> Level
        ensures { result ≡ level_of (pos 0) ((data_level self).tenths +ℤ tenths) }
    {
        Level::of(
            i32::from(self.base) + i32::from(self.adjustment),
            i32::from(self.part_of_loss()) + i32::from(tenths),
        )
    }

    fn level(self) -> Level
        ensures { result ≡ data_level self }
    {
        self.level_above(0)
    }

    /// The data power before any cap. Where there is no want it is that of one block.
    pub(crate) fn raw_data(self, want: Option<DataWant>) -> u64
        ensures { result ≡ raw_data self want }
    {
        self.level().nanowatts() * u64::from(want.map_or(1, |want| want.blocks))
    }

    fn data_power(self, cap: u64, want: Option<DataWant>) -> u64
        ensures { result ≡ data_power self «cap» want }
    {
        want.map_or(0, |_| self.raw_data(want).min(cap))
    }

    fn sounding_level(self, offset: u8) -> Level
        ensures { result ≡ sounding_level self offset }
    {
        self.level_above(sounding_offset(offset))
    }

    fn raw_sounding(self, want: SoundingWant) -> u64
        ensures { result ≡ raw_sounding self want }
    {
        self.sounding_level(want.offset).nanowatts() * u64::from(want.blocks)
    }

    fn sounding_power(self, cap: u64, want: Option<SoundingWant>) -> u64
        ensures { result ≡ sounding_power self «cap» want }
    {
        want.map_or(0, |want| self.raw_sounding(want).min(cap))
    }
}

/// The offset of sounding from data that an index stands for, in tenths of a decibel.
fn sounding_offset(index: u8) -> i16
    ensures { result ≡ sounding_offset index }
{
    15 * i16::from(index) - 105
}

impl ControlWant {
    /// What format 3 adds to the level: half a decibel for each bit after the first.
    fn format_tenths(self) -> u16
        ensures { result ≡ tenths_of self.format self.size }
    {
        match self.format {
            ControlFormat::Format3 => 5 * u16::from(self.size.saturating_sub(1)),
            _ => 0,
        }
    }

    /// What format 2 makes of a power: a quarter of it for each bit, and for four bits at least.
    fn format_power(self, nanowatts: u64) -> u64
        requires { nanowatts ≤ 9772372209 }
        ensures { result ≡ power_of self.format self.size nanowatts }
    {
        match self.format {
            ControlFormat::Format2 => nanowatts * u64::from(self.size.max(4)) / 4,
            _ => nanowatts,
        }
    }
}

/// The offset of a want, in dB, or 0.
fn offset_or_none(want: Option<ControlWant>) -> i8
    ensures { result ≡ offset_or_none want }
{
    want.map_or(0, |want| want.offset)
}

/// The tenths of a decibel that the format of a want adds, or 0.
fn format_tenths(want: Option<ControlWant>) -> u16
    ensures { result ≡ format_tenths want }
{
    want.map_or(0, |want| want.format_tenths())
}

impl ControlValues {
    /// The values of a cell with these settings, its loop as it stands.
    pub(crate) fn of(settings: Settings, cell: &Cell) -> ControlValues
        ensures { result ≡ control_values settings cell.now }
    {
        ControlValues {
            base: settings.control_base,
            loss: cell.loss,
            adjustment: cell.control_loop,
        }
    }

    /// The decibels of the level before any offset.
    fn open_loop_decibels(self) -> i32
        ensures { result ≡ open_loop_decibels self }
    {
        i32::from(self.base) + i32::from(self.loss) + i32::from(self.adjustment)
    }

    fn level(self, want: Option<ControlWant>) -> Level
        ensures { result ≡ control_level self want }
    {
        let offset = offset_or_none(want);
        let tenths = format_tenths(want);
        Level::of(
            self.open_loop_decibels() + i32::from(offset),
            i32::from(tenths),
        )
    }

    /// The control power before any cap. Where there is no want it has no offset and no format.
    pub(crate) fn raw_control(self, want: Option<ControlWant>) -> u64
        ensures { result ≡ raw_control self want }
    {
        let nanowatts = self.level(want).nanowatts();
        want.map_or(nanowatts, |want| want.format_power(nanowatts))
    }

    fn control_power(self, cap: u64, want: Option<ControlWant>) -> u64
        ensures { result ≡ control_power self «cap» want }
    {
        want.map_or(0, |_| self.raw_control(want).min(cap))
    }
}

/// The power of a data want under a cap.
// Cap and want stay two parameters: the want is a call's; the cap is the cell's maximum, for data less what control takes.
pub fn data_want(values: DataValues, cap: u64, want: DataWant) -> u64
    ensures value { result ≡ data_power values «cap» (Some want) }
    ensures want_close_below_exact { «cap» ≤ 1995262314 → WantInRange (Data want) → CloseBelowExact (data_level values) want.blocks (raw_data values (Some want)) «cap» result }
{
    values.data_power(cap, Some(want))
}

/// What a cell with these settings wants, its loops as they stand.
fn powers_with(settings: Settings, cell: &Cell, wants: CellWants) -> Powers
    ensures { result ≡ wanted_with (Some settings) cell.now wants }
{
    let most = settings.maximum.nanowatts();
    let values = DataValues::of(settings, cell);
    let control = ControlValues::of(settings, cell).control_power(most, wants.control);
    Powers {
        control,
        data: values.data_power(most.saturating_sub(control), wants.data),
        sounding: values.sounding_power(most, wants.sounding),
    }
}

impl Cell {
    /// What the cell wants of a subframe, its loops as they stand. A cell that is not set wants nothing.
    pub fn wanted(&self, wants: CellWants) -> Powers
        ensures value { result ≡ wanted_powers self.now wants }
        ensures want_close_below_exact { DataCloseBelowExact self.now.settings wants.«data» self.now result }
        ensures within_maximum { WithinMaximum self.now result }
    {
        self.settings.map_or(Powers::NONE, |settings| powers_with(settings, self, wants))
    }
}
