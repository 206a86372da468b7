// A subframe settled, as a function of the terminal.
ghost use Rattle.std.specs.Prelude.{◌≡◌};
ghost use Rattle.settling.specs.AddUp.{CellsAddUp};
ghost use Rattle.states.specs.States.{shares_in_force};
ghost use Rattle.terminal.specs.Kept.{PowerWithin, SumsWithin, pending};
ghost use Rattle.terminal.specs.Settled.{more_power, more_powers, settlement, settled_state};

use crate::terminal::Terminal;
use cells::move_all;
use settling::{GroupPowers, Power, settle};
use sharing::{Budget, HoldingRule};
use states::{State, Subframe};

/// A sum of powers with one subframe's more.
// No `+` on `Power`: sums are taken here alone, and that 64 bits hold them comes from what a terminal keeps to.
fn more_power(sum: Power, more: Power) -> Power
    requires sum_within { PowerWithin 863999999 sum }
    requires more_within { PowerWithin 1 more }
    ensures { result ≡ more_power sum more }
{
    Power {
        wanted: sum.wanted + more.wanted,
        granted: sum.granted + more.granted,
    }
}

// Two lines for two groups, as is told at `PerGroup`.
fn more_powers(sums: GroupPowers, more: GroupPowers) -> GroupPowers
    requires sums_within { SumsWithin 863999999 sums }
    requires more_within { SumsWithin 1 more }
    ensures { result ≡ more_powers sums more }
{
    GroupPowers {
        master: more_power(sums.master, more.master),
        secondary: more_power(sums.secondary, more.secondary),
    }
}

impl<R: HoldingRule> Terminal<R> {
    /// The budget of the shares in force: they are never refused.
    fn budget(&self) -> Budget
        ensures { result.shares ≡ shares_in_force self.now.state }
    {
        self.state.shares.budget().unwrap()
    }

    /// The state once the open subframe is settled: the cells moved, the wants shared out, the sums and the count raised.
    pub(crate) fn settled(&self) -> State
        requires { pending self.now.state.subframe ≡ 1 }
        ensures value { result ≡ settled_state (R.reserve self.now.rule) self.now.state }
        ensures most { SumsWithin 1 (settlement (R.reserve self.now.rule) self.now.state).groups }
        ensures cells_add_up_to_groups { CellsAddUp (settlement (R.reserve self.now.rule) self.now.state) }
    {
        let wants = self.state.wants();
        let mut cells = self.state.cells;
        move_all(&mut cells, &wants, self.state.settled);
        let outcome = settle(&self.rule, &self.budget(), &cells, &wants);
        State {
            cells,
            shares: self.state.shares,
            settled: self.state.settled + 1,
            sums: more_powers(self.state.sums, outcome.groups),
            subframe: Subframe::Settled { wants, outcome },
        }
    }
}
