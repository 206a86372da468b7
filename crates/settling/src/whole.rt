// A subframe settled, as a function of the cells, the wants, the budget and the holding rule.
ghost use Rattle.std.specs.Prelude.{◌≡◌};
ghost use Rattle.settling.specs.Outcomes.{outcome_of, groups_from};
ghost use Rattle.settling.specs.AddUp.{Settleable, CellsAddUp};

use crate::classes::{demands, wants_by_class};
use crate::grants::{grants_by_class, powers_of_four};
use crate::outcome::{GroupPowers, Outcome, Power};
use cells::{Cell, CellWants, wanted_all};
use sharing::{Budget, HoldingRule, PerGroup, Sharing, ranked, share};

/// What each group wanted, and was granted.
// Two lines for two groups, as is told at `PerGroup`.
fn groups_of(sharing: Sharing) -> GroupPowers
    ensures { result ≡ groups_from sharing.demand.wanted sharing.granted }
{
    PerGroup {
        master: Power {
            wanted: sharing.demand.wanted.master,
            granted: sharing.granted.master,
        },
        secondary: Power {
            wanted: sharing.demand.wanted.secondary,
            granted: sharing.granted.secondary,
        },
    }
}

/// Settles a subframe, the loops as they stand: what every cell and each group wants, and what they are granted.
pub fn settle<R: HoldingRule>(
    rule: &R,
    budget: &Budget,
    cells: &[Cell; 8],
    wants: &[CellWants; 8],
) -> Outcome
    ensures value { result ≡ outcome_of (R.reserve rule.now) budget.now.shares cells.now wants.now }
    ensures cells_add_up_to_groups { Settleable budget.now.shares cells.now wants.now → CellsAddUp result }
{
    let powers = wanted_all(cells, wants);
    let demands = demands(wants, &powers);
    let mut ranks = ranked(&wants_by_class(&demands));
    let Ok(sharing) = share(rule, budget, PerGroup::NONE, &mut ranks) else {
        unreachable()
    };
    let grants = grants_by_class(&ranks);
    // Named one by one: no method makes one array of two.
    let [a, b, c, d] = powers_of_four(&demands.master, grants.master);
    let [e, f, g, h] = powers_of_four(&demands.secondary, grants.secondary);
    Outcome {
        cells: [a, b, c, d, e, f, g, h],
        groups: groups_of(sharing),
    }
}
