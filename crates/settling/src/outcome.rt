// What a settled subframe leaves. All powers in nanowatts.
use sharing::PerGroup;

/// A power that was wanted, and what was granted of it.
#[derive(Clone, Copy)]
pub struct Power {
    pub wanted: u64,
    pub granted: u64,
}

/// The powers of one cell.
#[derive(Clone, Copy)]
pub struct CellPowers {
    pub control: Power,
    pub data: Power,
    pub sounding: Power,
}

/// The powers of both groups.
pub type GroupPowers = PerGroup<Power>;

/// The powers of all cells and of both groups.
#[derive(Clone, Copy)]
pub struct Outcome {
    pub cells: [CellPowers; 8],
    pub groups: GroupPowers,
}
