// Where commands wait for the subframe in which they act.
ghost use Rattle.std.specs.Prelude.{◌≡◌, ◌<◌, OnOk};
ghost use Rattle.refusals.specs.First.{first_that_holds, refused_or, unchanged_or};
ghost use Rattle.cells.specs.Cells.{CellInRange};
ghost use Rattle.cells.specs.Commands.{due_subframe, place_for, due, taken, put, places_conditions, WaitsFor};
ghost use Rattle.cells.specs.Waiting.{queue_conditions, queued, ActsFourLater};

use crate::cell::Cell;
use crate::commands::{Channel, Command, TpcCommand};
use refusals::Refusal;

/// The subframe in which a command acts that is given after so many settled ones.
fn due_subframe(settled: u32) -> u64
    ensures { result ≡ due_subframe settled }
{
    u64::from(settled) + 4
}

/// The place in which a command waits for a subframe.
fn place_of(subframe: u64) -> usize
    ensures value { result ≡ place_for subframe }
    ensures below { result < 5 }
{
    // Below 5.
    (subframe % 5) as usize
}

/// Takes the command that waits for a subframe.
pub(crate) fn take_due(places: &mut [Option<TpcCommand>; 5], subframe: u32) -> Option<TpcCommand>
    ensures value { result ≡ due places.old subframe }
    ensures leaves { places.new ≡ taken places.old subframe }
{
    places[place_of(u64::from(subframe))].take()
}

/// Has a command wait for a subframe. Refused where one waits for it already.
fn wait(
    places: &mut [Option<TpcCommand>; 5],
    subframe: u64,
    code: TpcCommand,
) -> Result<(), Refusal>
    ensures answers { result ≡ refused_or (first_that_holds (places_conditions places.old subframe)) tt }
    ensures leaves { places.new ≡ unchanged_or (first_that_holds (places_conditions places.old subframe)) (put places.old subframe code) places.old }
    ensures waits_for { OnOk result (WaitsFor subframe code places.old places.new) }
{
    let place = place_of(subframe);
    if places[place].is_some() {
        return Err(Refusal::GivenAlready);
    }
    places[place] = Some(code);
    Ok(())
}

impl Cell {
    /// Has a command, given after so many settled subframes, wait for its own. Refused where one of its channel waits for that already.
    pub fn queue(&mut self, settled: u32, command: Command) -> Result<(), Refusal>
        ensures answers { result ≡ refused_or (first_that_holds (queue_conditions self.old settled command)) tt }
        ensures leaves { self.new ≡ unchanged_or (first_that_holds (queue_conditions self.old settled command)) (queued self.old settled command) self.old }
        ensures acts_four_later { OnOk result (ActsFourLater self.old settled command self.new) }
        ensures in_range { CellInRange self.old → CellInRange self.new }
    {
        let subframe = due_subframe(settled);
        match command.channel {
            Channel::Data => wait(&mut self.data_commands, subframe, command.code),
            Channel::Control => wait(&mut self.control_commands, subframe, command.code),
        }
    }
}
