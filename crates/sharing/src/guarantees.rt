// What each group is guaranteed of a total.
ghost use Rattle.std.specs.Prelude.{◌≡◌, ◌||◌, [], ◌∷◌, nat_lt};
ghost use Rattle.refusals.specs.First.{when, first_that_holds, refused_or};
ghost use Rattle.refusals.specs.declared.Refusal.TheVariants.{OutOfRange};
ghost use Rattle.sharing.specs.Guarantees.{guarantee_of, shares_refusal, shares_of, amounts};

use crate::budget::Budget;
use crate::groups::{PerGroup, Shares};
use refusals::Refusal;
use split::MAX_NANOWATTS;

/// A percentage of a total, rounded down. Refused where the total is above the largest or the percentage above 100.
pub fn guarantee(total: u64, percentage: u32) -> Result<u64, Refusal>
    ensures { result ≡ refused_or (first_that_holds (when (nat_lt 1995262314 total || nat_lt 100 percentage) OutOfRange ∷ [])) (guarantee_of total percentage) }
{
    if total > MAX_NANOWATTS || percentage > 100 {
        return Err(Refusal::OutOfRange);
    }
    Ok(total * u64::from(percentage) / 100)
}

/// What both groups are guaranteed of a total.
fn both_guarantees(total: u64, master: u32, secondary: u32) -> Result<PerGroup<u64>, Refusal>
    ensures { result ≡ refused_or (first_that_holds (when (nat_lt 1995262314 total || (nat_lt 100 master || nat_lt 100 secondary)) OutOfRange ∷ [])) (shares_of total master secondary).guarantees }
{
    Ok(PerGroup {
        master: guarantee(total, master)?,
        secondary: guarantee(total, secondary)?,
    })
}

impl Budget {
    /// A total with the groups' percentages of it. Refused where one of the three is out of range, or the percentages are above 100 together.
    #[tactic(auto, using(crate::proofs::Guaranteed::sum_kept))]
    pub fn new(total: u64, master: u32, secondary: u32) -> Result<Budget, Refusal>
        ensures { amounts result ≡ refused_or (shares_refusal total master secondary) (shares_of total master secondary) }
    {
        let guarantees = both_guarantees(total, master, secondary)?;
        if master + secondary > 100 {
            return Err(Refusal::PercentagesAbove100);
        }
        let shares = Shares { total, guarantees };
        Ok(Budget { shares })
    }
}
