// A terminal: its state and its holding rule.
ghost use Rattle.std.specs.Prelude.{◌+◌, ◌≤◌};
ghost use Rattle.std.specs.List.{AllByRecursion};
ghost use Rattle.cells.specs.Cells.{CellInRange};
ghost use Rattle.states.specs.Totals.{SharesKept};
ghost use Rattle.states.specs.States.{wants_in};
ghost use Rattle.terminal.specs.Kept.{LoopLimits, WantsKept, SumsWithin, pending};

use states::State;

/// A terminal under a holding rule. Its type says what every terminal keeps to: loops between -300 and 200 dB, settings, losses and wants
/// that no call refuses, sums that 64 bits hold, and at most 864,000,000 subframes.
#[derive(Drop)]
pub struct Terminal<R> {
    pub(crate) state: State,
    pub(crate) rule: R,
    ghost shares_kept: { SharesKept state.shares },
    ghost cells_in_range: { ∥ AllByRecursion CellInRange state.cells ∥₁ },
    ghost loop_limits: { LoopLimits state.cells },
    ghost wants_kept: { ∥ WantsKept (wants_in state.subframe) ∥₁ },
    ghost sums_within: { SumsWithin state.settled state.sums },
    ghost subframes_left: { state.settled + pending state.subframe ≤ 864000000 },
}
