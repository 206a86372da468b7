// How the loops of a cell move when a subframe settles.
ghost use Rattle.std.specs.Prelude.{IfSome, ◌≡◌};
ghost use Rattle.cells.specs.Cells.{CellInRange};
ghost use Rattle.cells.specs.WantRanges.{WantsInRange};
ghost use Rattle.cells.specs.Loops.{ignored, with_step, moved_data, moved_control, moved};
ghost use Rattle.cells.specs.LoopRule.{MovesByCommands};

use crate::cell::Cell;
use crate::commands::{TpcCommand, step};
use crate::powers::{ControlValues, DataValues};
use crate::settings::{LoopKind, Settings};
use crate::waiting::take_due;
use crate::wants::{CellWants, ControlWant, DataWant};

/// A step down counts only above this power, in nanowatts.
const LEAST: u64 = 100;

/// Whether a step is ignored at the power `raw`, before any cap, of a cell whose maximum is `most`.
fn is_ignored(by: i16, raw: u64, most: u64) -> bool
    ensures { result ≡ ignored by raw most }
{
    (by > 0 && raw >= most) || (by < 0 && raw <= LEAST)
}

/// A loop with a step added, unless it is ignored. The sum stops at the ends of 16 bits, which no loop in its limits comes near.
fn with_step(before: i16, by: i16, raw: u64, most: u64) -> i16
    ensures { result ≡ with_step before by raw most }
{
    if is_ignored(by, raw, most) {
        before
    } else {
        before.saturating_add(by)
    }
}

impl Cell {
    /// The data loop after the command that is due.
    // Two channels of one `with_step`: this and `moved_control` each hand it their own values. Both look at the command first: most subframes
    // have none, and the two powers are worked out only where they judge a step.
    fn moved_data(
        &self,
        settings: Settings,
        command: Option<TpcCommand>,
        want: Option<DataWant>,
    ) -> i16
        ensures { result ≡ moved_data settings self.now command want }
    {
        let Some(code) = command else {
            return self.data_loop;
        };
        match settings.loop_kind {
            LoopKind::Absolute => step(LoopKind::Absolute, code),
            LoopKind::Accumulating => with_step(
                self.data_loop,
                step(LoopKind::Accumulating, code),
                DataValues::of(settings, self).raw_data(want),
                settings.maximum.nanowatts(),
            ),
        }
    }

    /// The control loop after the command that is due: it always accumulates.
    fn moved_control(
        &self,
        settings: Settings,
        command: Option<TpcCommand>,
        want: Option<ControlWant>,
    ) -> i16
        ensures { result ≡ moved_control settings self.now command want }
    {
        let Some(code) = command else {
            return self.control_loop;
        };
        with_step(
            self.control_loop,
            step(LoopKind::Accumulating, code),
            ControlValues::of(settings, self).raw_control(want),
            settings.maximum.nanowatts(),
        )
    }

    /// Moves the loops by the commands that wait for a subframe, and takes these.
    pub fn move_loops(&mut self, wants: CellWants, subframe: u32)
        ensures leaves { self.new ≡ moved self.old wants subframe }
        ensures loop_limits { CellInRange self.old → WantsInRange wants → CellInRange self.new }
        ensures moves_by_commands { IfSome self.old.settings (λ s. MovesByCommands s self.old wants subframe self.new) }
    {
        let Some(settings) = self.settings else {
            return;
        };
        let data_command = take_due(&mut self.data_commands, subframe);
        let control_command = take_due(&mut self.control_commands, subframe);
        self.data_loop = self.moved_data(settings, data_command, wants.data);
        self.control_loop = self.moved_control(settings, control_command, wants.control);
    }
}
