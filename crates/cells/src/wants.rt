// What a subframe wants of a cell, and the range of each field of a want.
ghost use Rattle.std.specs.Prelude.{◌≡◌};
ghost use Rattle.refusals.specs.First.{first_that_holds, refused_or};
ghost use Rattle.refusals.specs.Numbers.{StandsFor};
ghost use Rattle.cells.specs.Numbers.{format_number};
ghost use Rattle.cells.specs.WantRanges.{control_size_fits, is_sounding_size, control_conditions, data_conditions, sounding_conditions, want_conditions, control_of, data_of, sounding_of, want_of, WantChecked};
ghost use Rattle.cells.specs.Kinds.{kind_number, kind_of, class_of_want};
ghost use Rattle.cells.specs.declared.wants.Want.TheVariants.{Control, Data, Sounding};

use refusals::Refusal;
use sharing::Class;

/// What a want is for. Each discriminant is the number of the kind.
#[derive(Clone, Copy, PartialEq, Eq)]
pub enum WantKind {
    Control = 1,
    Data = 2,
    Sounding = 3,
}

/// The format of a control channel. Each discriminant is the number of the format.
#[derive(Clone, Copy, PartialEq, Eq)]
pub enum ControlFormat {
    Format1 = 1,
    Format2 = 2,
    Format3 = 3,
}

/// Control information on its own channel: its offset in dB, and its size in bits.
#[derive(Clone, Copy)]
pub struct ControlWant {
    pub class: Class,
    pub offset: i8,
    pub format: ControlFormat,
    pub size: u8,
}

/// Data in so many resource blocks.
#[derive(Clone, Copy)]
pub struct DataWant {
    pub class: Class,
    pub blocks: u8,
}

/// Sounding over so many resource blocks, with the index of its offset.
#[derive(Clone, Copy)]
pub struct SoundingWant {
    pub blocks: u8,
    pub offset: u8,
}

/// A want of one kind.
#[derive(Clone, Copy)]
pub enum Want {
    Control(ControlWant),
    Data(DataWant),
    Sounding(SoundingWant),
}

/// A want as a call brings it.
// Plain numbers, for a call may bring any: `TryFrom` reads or refuses them, in the order of the refusals.
#[derive(Clone, Copy)]
pub struct RawWant {
    pub kind: u32,
    pub class: u32,
    pub size: u32,
    pub format: u32,
    pub offset: i64,
}

/// All that a subframe wants of a cell: at most one want of each kind.
#[derive(Clone, Copy)]
pub struct CellWants {
    pub control: Option<ControlWant>,
    pub data: Option<DataWant>,
    pub sounding: Option<SoundingWant>,
}

impl CellWants {
    /// Nothing is wanted.
    pub const NONE: CellWants = CellWants {
        control: None,
        data: None,
        sounding: None,
    };
}

// By hand: no derive reads an enum from its discriminants.
impl TryFrom<u32> for WantKind {
    type Error = Refusal;

    ghost try_from_gives = { StandsFor kind_number 1 3 };

    /// The kind of a number. Refused where it is not 1 to 3.
    fn try_from(number: u32) -> Result<WantKind, Refusal> {
        match number {
            1 => Ok(WantKind::Control),
            2 => Ok(WantKind::Data),
            3 => Ok(WantKind::Sounding),
            _ => Err(Refusal::OutOfRange),
        }
    }
}

// By hand: no derive reads an enum from its discriminants.
impl TryFrom<u32> for ControlFormat {
    type Error = Refusal;

    ghost try_from_gives = { StandsFor format_number 1 3 };

    /// The format of a number. Refused where it is not 1 to 3.
    fn try_from(number: u32) -> Result<ControlFormat, Refusal> {
        match number {
            1 => Ok(ControlFormat::Format1),
            2 => Ok(ControlFormat::Format2),
            3 => Ok(ControlFormat::Format3),
            _ => Err(Refusal::OutOfRange),
        }
    }
}

/// Whether a control want of this format may have this size.
fn control_size_fits(format: ControlFormat, size: u32) -> bool
    ensures { result ≡ control_size_fits (format_number format) size }
{
    match format {
        ControlFormat::Format1 => size == 0,
        ControlFormat::Format2 => size <= 13,
        ControlFormat::Format3 => (1..=11).contains(&size),
    }
}

/// Whether sounding may take so many blocks.
fn is_sounding_size(size: u32) -> bool
    ensures { result ≡ is_sounding_size size }
{
    (4..=96).contains(&size) && size % 4 == 0
}

// One function for each kind: each has ranges of its own.
fn checked_control(raw: RawWant) -> Result<Want, Refusal>
    ensures { result ≡ refused_or (first_that_holds (control_conditions raw)) (Control (control_of raw)) }
{
    let class = Class::try_from(raw.class)?;
    let format = ControlFormat::try_from(raw.format)?;
    if raw.class > 2 || !control_size_fits(format, raw.size) || !(-2..=6).contains(&raw.offset) {
        return Err(Refusal::OutOfRange);
    }
    // In range: tested above.
    Ok(Want::Control(ControlWant {
        class,
        offset: raw.offset as i8,
        format,
        size: raw.size as u8,
    }))
}

fn checked_data(raw: RawWant) -> Result<Want, Refusal>
    ensures { result ≡ refused_or (first_that_holds (data_conditions raw)) (Data (data_of raw)) }
{
    let class = Class::try_from(raw.class)?;
    if raw.class > 3 || !(1..=110).contains(&raw.size) || raw.format != 0 || raw.offset != 0 {
        return Err(Refusal::OutOfRange);
    }
    // In range: tested above.
    Ok(Want::Data(DataWant {
        class,
        blocks: raw.size as u8,
    }))
}

fn checked_sounding(raw: RawWant) -> Result<Want, Refusal>
    ensures { result ≡ refused_or (first_that_holds (sounding_conditions raw)) (Sounding (sounding_of raw)) }
{
    if raw.class != 4
        || !is_sounding_size(raw.size)
        || raw.format != 0
        || !(0..=15).contains(&raw.offset)
    {
        return Err(Refusal::OutOfRange);
    }
    // In range: tested above.
    Ok(Want::Sounding(SoundingWant {
        blocks: raw.size as u8,
        offset: raw.offset as u8,
    }))
}

/// The want that a call brings, by its kind.
// Apart from `try_from`, so that only what is read back has to be shown there.
fn checked(raw: RawWant) -> Result<Want, Refusal>
    ensures { result ≡ refused_or (first_that_holds (want_conditions raw)) (want_of raw) }
{
    match WantKind::try_from(raw.kind)? {
        WantKind::Control => checked_control(raw),
        WantKind::Data => checked_data(raw),
        WantKind::Sounding => checked_sounding(raw),
    }
}

impl TryFrom<RawWant> for Want {
    type Error = Refusal;

    ghost try_from_gives = { WantChecked };

    /// The want that a call brings. Refused where its kind is none of the three, or a field is out of that kind's range.
    fn try_from(raw: RawWant) -> Result<Want, Refusal> {
        checked(raw)
    }
}

impl Want {
    pub fn kind(self) -> WantKind
        ensures { result ≡ kind_of self }
    {
        match self {
            Want::Control(_) => WantKind::Control,
            Want::Data(_) => WantKind::Data,
            Want::Sounding(_) => WantKind::Sounding,
        }
    }

    pub fn class(self) -> Class
        ensures { result ≡ class_of_want self }
    {
        match self {
            Want::Control(want) => want.class,
            Want::Data(want) => want.class,
            Want::Sounding(_) => Class::Sounding,
        }
    }
}
