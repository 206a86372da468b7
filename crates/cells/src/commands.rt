// Power control commands, and their steps.
ghost use Rattle.std.specs.Prelude.{◌≡◌, ◌<◌};
ghost use Rattle.refusals.specs.Numbers.{StandsFor};
ghost use Rattle.cells.specs.Numbers.{channel_number, code_number};
ghost use Rattle.cells.specs.Ranges.{CommandChecked};
ghost use Rattle.cells.specs.Commands.{step_of};

use crate::settings::LoopKind;
use refusals::Refusal;

/// The channel whose loop a command moves. Each discriminant is the number of the channel.
#[derive(Clone, Copy, PartialEq, Eq)]
pub enum Channel {
    Data = 0,
    Control = 1,
}

/// The command field of a transmit power control (TPC) command. Each discriminant is the field's value.
#[derive(Clone, Copy, PartialEq, Eq)]
pub enum TpcCommand {
    Zero = 0,
    One = 1,
    Two = 2,
    Three = 3,
}

/// A command to the loop of one channel.
#[derive(Clone, Copy)]
pub struct Command {
    pub channel: Channel,
    pub code: TpcCommand,
}

/// A command as a call brings it.
// Plain numbers, for a call may bring any: `TryFrom` reads or refuses them, in the order of the refusals.
#[derive(Clone, Copy)]
pub struct RawCommand {
    pub channel: u32,
    pub code: u32,
}

// Tables and no `match` of eight arms: each row is that of the standard's table.

const ACCUMULATED_STEPS: [i16; 4] = [-1, 0, 1, 3];

const ABSOLUTE_STEPS: [i16; 4] = [-4, -1, 1, 4];

// By hand: no derive reads an enum from its discriminants.
impl TryFrom<u32> for Channel {
    type Error = Refusal;

    ghost try_from_gives = { StandsFor channel_number 0 1 };

    /// The channel of a number. Refused where it is above 1.
    fn try_from(number: u32) -> Result<Channel, Refusal> {
        match number {
            0 => Ok(Channel::Data),
            1 => Ok(Channel::Control),
            _ => Err(Refusal::OutOfRange),
        }
    }
}

// By hand: no derive reads an enum from its discriminants.
impl TryFrom<u32> for TpcCommand {
    type Error = Refusal;

    ghost try_from_gives = { StandsFor code_number 0 3 };

    /// The command of a field's value. Refused where it is above 3.
    fn try_from(number: u32) -> Result<TpcCommand, Refusal> {
        match number {
            0 => Ok(TpcCommand::Zero),
            1 => Ok(TpcCommand::One),
            2 => Ok(TpcCommand::Two),
            3 => Ok(TpcCommand::Three),
            _ => Err(Refusal::OutOfRange),
        }
    }
}

impl TryFrom<RawCommand> for Command {
    type Error = Refusal;

    ghost try_from_gives = { CommandChecked };

    /// The command that a call brings. Refused where its channel is above 1 or its code above 3.
    fn try_from(raw: RawCommand) -> Result<Command, Refusal> {
        Ok(Command {
            channel: Channel::try_from(raw.channel)?,
            code: TpcCommand::try_from(raw.code)?,
        })
    }
}

/// The place of a code in a table of steps.
fn row(code: TpcCommand) -> usize
    ensures value { result ≡ code_number code }
    ensures below { result < 4 }
{
    // A discriminant: no `From` gives it.
    code as usize
}

/// The step of a command in dB, where it is accumulated and where it is absolute.
pub fn step(kind: LoopKind, code: TpcCommand) -> i16
    ensures value { result ≡ step_of kind code }
{
    match kind {
        LoopKind::Accumulating => ACCUMULATED_STEPS[row(code)],
        LoopKind::Absolute => ABSOLUTE_STEPS[row(code)],
    }
}
