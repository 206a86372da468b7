// What is known of a subframe before anything is shared.
ghost use Rattle.std.specs.Prelude.{◌≡◌, ◌^◌, ◌<◌, not, [], ◌∷◌, IfOk, Decides, nat_lt};
ghost use Rattle.refusals.specs.First.{when, first_that_holds, refused_or};
ghost use Rattle.refusals.specs.declared.Refusal.TheVariants.{OutOfRange};
ghost use Rattle.sharing.specs.Groups.{rival, at_group};
ghost use Rattle.sharing.specs.Ranks.{wanted_by, ahead_of, whole_want};
ghost use Rattle.sharing.specs.Sharing.{reserved, reserves_by, rival_claim, demand_of, demand_refusal};
ghost use Rattle.sharing.specs.Verdict.{Fits, fits_test, RanksAhead};

use crate::budget::Budget;
use crate::groups::{Group, PerGroup, Shares};
use crate::ranks::Rank;
use crate::rules::HoldingRule;
use refusals::Refusal;

/// What each group wants, what the holding rule reserves for it, and what its rival can keep from it.
#[derive(Clone, Copy)]
pub struct Demand {
    pub wanted: PerGroup<u64>,
    pub reserves: PerGroup<u64>,
    pub claims: PerGroup<u64>,
}

/// The wants of a subframe: its ranks, and what each group was granted already.
#[derive(Clone, Copy)]
struct Wants<'a> {
    already: PerGroup<u64>,
    ranks: &'a [Rank],
}

impl Wants<'_> {
    /// All that a group wants, with what it was granted already. Refused where 64 bits do not hold it.
    fn all_of(&self, group: Group) -> Result<u64, Refusal>
        ensures { result ≡ refused_or (first_that_holds (when (not (nat_lt (whole_want self.now.already group self.now.ranks.now) (2 ^ 64))) OutOfRange ∷ [])) (whole_want self.now.already group self.now.ranks.now) }
    {
        // Tried as `try_fold`, with the refusal inside and after it, and as a sum in 128 bits: no proof closed.
        let mut sum = self.already.of(group);
        for rank in self.ranks {
            let want = group.own(rank.group, rank.want);
            sum = sum.checked_add(want).ok_or(Refusal::OutOfRange)?;
        }
        Ok(sum)
    }

    /// The rival's wants that rank ahead of the group's lowest-ranked want above 0.
    #[tactic(auto, using(crate::proofs::Steps::searched_none))]
    fn ahead_of(&self, group: Group) -> u64
        requires { wanted_by (rival group) self.now.ranks.now < 2 ^ 64 }
        ensures { result ≡ ahead_of group self.now.ranks.now }
    {
        let rival = group.rival();
        let mut passed = 0;
        let mut ahead = 0;
        for rank in self.ranks {
            if group.own(rank.group, rank.want) > 0 {
                ahead = passed;
            }
            passed += rival.own(rank.group, rank.want);
        }
        ahead
    }

    /// What its rival can keep from a group.
    #[tactic(auto, using(crate::proofs::Steps::ahead_most))]
    fn claim_of_rival(&self, reserves: PerGroup<u64>, group: Group) -> u64
        requires { whole_want self.now.already (rival group) self.now.ranks.now < 2 ^ 64 }
        ensures { result ≡ rival_claim reserves self.now.already group self.now.ranks.now }
    {
        let rival = group.rival();
        reserves
            .of(rival)
            .max(self.already.of(rival) + self.ahead_of(group))
    }
}

/// What a rule reserves for each group.
fn ask<R: HoldingRule>(rule: &R, guarantees: PerGroup<u64>, wanted: PerGroup<u64>) -> PerGroup<u64>
    ensures { result ≡ reserved (R.reserve rule.now) guarantees wanted }
{
    PerGroup {
        master: rule.reserve(guarantees.master, wanted.master),
        secondary: rule.reserve(guarantees.secondary, wanted.secondary),
    }
}

impl Demand {
    /// The demand of a subframe under a holding rule. Refused where 64 bits do not hold what a group wants.
    #[tactic(auto, using(crate::proofs::Steps::ranks_ahead))]
    pub fn new<R: HoldingRule>(
        rule: &R,
        budget: &Budget,
        already: PerGroup<u64>,
        ranks: &[Rank],
    ) -> Result<Demand, Refusal>
        ensures answers { result ≡ refused_or (demand_refusal already ranks.now) (demand_of (R.reserve rule.now) budget.now.shares.guarantees already ranks.now) }
        ensures ranks_ahead { (X : Group) → RanksAhead X ranks.now }
    {
        let wants = Wants { already, ranks };
        let wanted = PerGroup {
            master: wants.all_of(Group::Master)?,
            secondary: wants.all_of(Group::Secondary)?,
        };
        let reserves = ask(rule, budget.shares.guarantees, wanted);
        let claims = PerGroup {
            master: wants.claim_of_rival(reserves, Group::Master),
            secondary: wants.claim_of_rival(reserves, Group::Secondary),
        };
        Ok(Demand {
            wanted,
            reserves,
            claims,
        })
    }

    /// Whether a group will get all that it wants, told without sharing anything.
    pub fn fits(&self, shares: Shares, group: Group) -> bool
        ensures { result ≡ fits_test shares.total (at_group group shares.guarantees) (at_group group self.now.wanted) (at_group group self.now.claims) }
    {
        let wanted = self.wanted.of(group);
        let claim = self.claims.of(group);
        wanted <= shares.guarantees.of(group)
            || (claim <= shares.total && wanted <= shares.total - claim)
    }
}

/// Whether a group will get all that it wants in a subframe, told by the exact-fit condition alone.
pub fn fits<R: HoldingRule>(
    rule: &R,
    budget: &Budget,
    already: PerGroup<u64>,
    ranks: &[Rank],
    group: Group,
) -> Result<bool, Refusal>
    ensures answers { result ≡ refused_or (demand_refusal already ranks.now) (fits_test budget.now.shares.total (at_group group budget.now.shares.guarantees) (whole_want already group ranks.now) (rival_claim (reserves_by (R.reserve rule.now) budget.now.shares.guarantees already ranks.now) already group ranks.now)) }
    ensures exact_fit_condition { IfOk result (λ b. Decides b (Fits budget.now.shares.total (at_group group budget.now.shares.guarantees) (whole_want already group ranks.now) (rival_claim (reserves_by (R.reserve rule.now) budget.now.shares.guarantees already ranks.now) already group ranks.now))) }
{
    let demand = Demand::new(rule, budget, already, ranks)?;
    Ok(demand.fits(budget.shares, group))
}
