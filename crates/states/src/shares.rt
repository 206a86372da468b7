// The total, and the percentages of it that the groups are guaranteed.
ghost use Rattle.std.specs.Prelude.{◌≡◌};
ghost use Rattle.refusals.specs.First.{refused_or};
ghost use Rattle.sharing.specs.Guarantees.{shares_refusal, shares_of, amounts};
ghost use Rattle.levels.specs.Levels.{power};
ghost use Rattle.states.specs.Totals.{share_conditions, SharesChecked};

use levels::Level;
use refusals::{Refusal, refuse_first};
use sharing::Budget;

/// A total, and the percentages of it that the groups are guaranteed.
#[derive(Clone, Copy)]
pub struct PowerShares {
    pub total: Level,
    pub master: u8,
    pub secondary: u8,
}

/// The same as a call brings it. The total is in tenths of a dBm.
#[derive(Clone, Copy)]
pub struct RawShares {
    pub total: i64,
    pub master: u32,
    pub secondary: u32,
}

/// Where shares are refused.
fn conditions(raw: RawShares) -> [Option<Refusal>; 4]
    ensures { result ≡ share_conditions raw }
{
    let together = u64::from(raw.master) + u64::from(raw.secondary);
    [
        Refusal::OutOfRange.when(!(-400..=330).contains(&raw.total)),
        Refusal::OutOfRange.when(raw.master > 100),
        Refusal::OutOfRange.when(raw.secondary > 100),
        Refusal::PercentagesAbove100.when(together > 100),
    ]
}

impl TryFrom<RawShares> for PowerShares {
    type Error = Refusal;

    ghost try_from_gives = { SharesChecked };

    /// The shares that a call brings. Refused where a field is out of range, or the percentages are above 100 together.
    fn try_from(raw: RawShares) -> Result<PowerShares, Refusal> {
        refuse_first(&conditions(raw))?;
        // In range: tested above.
        Ok(PowerShares {
            total: Level::from_tenths(raw.total as i32),
            master: raw.master as u8,
            secondary: raw.secondary as u8,
        })
    }
}

impl PowerShares {
    /// The total in nanowatts, with what each group is guaranteed of it.
    pub fn budget(self) -> Result<Budget, Refusal>
        ensures { amounts result ≡ refused_or (shares_refusal (power self.total) self.master self.secondary) (shares_of (power self.total) self.master self.secondary) }
    {
        Budget::new(
            self.total.nanowatts(),
            u32::from(self.master),
            u32::from(self.secondary),
        )
    }
}
