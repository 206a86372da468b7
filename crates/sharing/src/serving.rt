// The sharing of one total, rank by rank.
ghost use Rattle.std.specs.Prelude.{◌≡◌, ◌+◌, ◌≤◌, min, IfOk, Err};
ghost use Rattle.refusals.specs.First.{refused_or, unchanged_or};
ghost use Rattle.sharing.specs.Ranks.{grants_of};
ghost use Rattle.sharing.specs.Sharing.{reserves_by, demand_refusal, room_at, served};
ghost use Rattle.sharing.specs.Shared.{shared_by, sharing_of};
ghost use Rattle.sharing.specs.Verdict.{MadeWithin, ExactFit, GuaranteedShare, NoMoreThanWanted, WithinTotal, RoomAtEveryRank};
ghost use Rattle.sharing.specs.Remainder.{StandardRemainder};

use crate::budget::Budget;
use crate::demand::Demand;
use crate::groups::{Group, PerGroup};
use crate::ranks::Rank;
use crate::rules::HoldingRule;
use refusals::Refusal;

/// A subframe that was shared: its demand, and all that each group was granted.
#[derive(Clone, Copy)]
pub struct Sharing {
    pub demand: Demand,
    pub granted: PerGroup<u64>,
}

// The total and the reserves go to these two functions alone: a struct of them would be made once and taken apart at once.

/// What a group may still take of the total.
fn room_for(total: u64, reserves: PerGroup<u64>, granted: PerGroup<u64>, group: Group) -> u64
    ensures { result ≡ room_at total reserves granted group }
{
    let rival = group.rival();
    let kept = granted.of(rival).max(reserves.of(rival));
    total.saturating_sub(granted.of(group)).saturating_sub(kept)
}

/// Serves the ranks in order under reserves that are known, and answers what each group was granted.
fn serve(
    total: u64,
    reserves: PerGroup<u64>,
    already: PerGroup<u64>,
    ranks: &mut [Rank],
) -> PerGroup<u64>
    ensures leaves { ranks.new ≡ served total reserves already ranks.old }
    ensures sums { result ≡ grants_of already (served total reserves already ranks.old) }
{
    let mut granted = already;
    for rank in ranks.iter_mut() {
        let room = room_for(total, reserves, granted, rank.group);
        rank.serve(room);
        granted = granted.plus(rank.group, rank.granted);
    }
    granted
}

// `Demand::new`, `fits` and `share` take the same four things. A caller calls one of them, once, so a struct of the four would
// only be made for that call, and each clause would name them through it.

/// Shares a budget's total among ranks, in their order, under a holding rule, after grants that were made already.
/// Each rank is left with its room and its grant. Refused, with the ranks as they were, where 64 bits do not hold what a group wants.
pub fn share<R: HoldingRule>(
    rule: &R,
    budget: &Budget,
    already: PerGroup<u64>,
    ranks: &mut [Rank],
) -> Result<Sharing, Refusal>
    ensures answers { result ≡ refused_or (demand_refusal already ranks.old) (sharing_of (R.reserve rule.now) budget.now.shares already ranks.old) }
    ensures leaves { ranks.new ≡ unchanged_or (demand_refusal already ranks.old) (shared_by (R.reserve rule.now) budget.now.shares already ranks.old) ranks.old }
    ensures refused_changes_nothing { (e : Refusal) → result ≡ Err e → ranks.new ≡ ranks.old }
    ensures room_at_every_rank { IfOk result (λ s. RoomAtEveryRank budget.now.shares.total budget.now.shares.guarantees s.demand.reserves already ranks.new) }
    ensures exact_fit { IfOk result (λ s. MadeWithin s.demand.reserves already → ExactFit budget.now.shares.total budget.now.shares.guarantees s.demand.reserves already ranks.new) }
    ensures guaranteed_share { IfOk result (λ s. MadeWithin s.demand.reserves already → GuaranteedShare budget.now.shares.total budget.now.shares.guarantees s.demand.reserves already ranks.new) }
    ensures no_more_than_wanted { IfOk result (λ s. NoMoreThanWanted budget.now.shares.total budget.now.shares.guarantees s.demand.reserves already ranks.new) }
    ensures standard_remainder { IfOk result (λ s. s.demand.reserves ≡ reserves_by min budget.now.shares.guarantees already ranks.old → MadeWithin s.demand.reserves already → StandardRemainder budget.now.shares.total budget.now.shares.guarantees already ranks.new) }
    ensures within_total { IfOk result (λ s. already.master + already.secondary ≤ budget.now.shares.total → WithinTotal budget.now.shares.total budget.now.shares.guarantees s.demand.reserves already ranks.new) }
{
    let demand = Demand::new(rule, budget, already, ranks)?;
    let granted = serve(budget.shares.total, demand.reserves, already, ranks);
    Ok(Sharing { demand, granted })
}
