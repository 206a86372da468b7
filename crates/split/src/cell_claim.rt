// Claims of a cell: for its data, and for its sounding.
ghost use Rattle.std.specs.Prelude.{refl};
ghost use Rattle.split.specs.Claims.{given};

use crate::claim::Claim;

/// Power for what one cell sends in a class of wants.
#[derive(Clone, Copy)]
pub struct CellClaim<const CLASS: u8> {
    pub want: u64,
    pub granted: u64,
}

/// Power for the data (PUSCH) of one cell.
pub type DataClaim = CellClaim<3>;

/// Power for the sounding (SRS) of one cell.
pub type SoundingClaim = CellClaim<4>;

impl<const CLASS: u8> Claim for CellClaim<CLASS> {
    ghost asks = { λ c. c.want };

    ghost holds = { λ c. c.granted };

    ghost given = { given };

    ghost takes_the_grant = { λ _ _. refl };

    ghost keeps_the_want = { λ _ _. refl };

    fn want(&self) -> u64 {
        self.want
    }

    fn grant(&mut self, nanowatts: u64) {
        self.granted = nanowatts;
    }
}
