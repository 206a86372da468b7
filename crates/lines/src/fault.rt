// What can go wrong while a recording is played: a record that cannot be read, or a call that the terminal refuses.
ghost use Rattle.std.specs.Prelude.{◌≡◌, false};
ghost use Rattle.refusals.specs.Numbers.{number_of};
ghost use Rattle.faults.specs.declared.Layer.TheVariants.{Terminal as TerminalLayer};
ghost use Rattle.lines.specs.declared.fault.PlayerFault.TheVariants.{Record, Terminal};
ghost use Rattle.lines.specs.PlayerFaults.{player_place, player_layer, player_number, player_ends_run};

use faults::{Fault, Layer, RecordFault};
use refusals::Refusal;

/// A call that the terminal refused, and the place of its record.
#[derive(Clone, Copy)]
pub struct RefusedAt {
    pub place: usize,
    pub refusal: Refusal,
}

impl Fault for RefusedAt {
    ghost place = { λ refused. refused.place };

    ghost layer = { λ _. TerminalLayer };

    ghost number = { λ refused. number_of refused.refusal };

    ghost ends_run = { λ _. false };

    fn place(self) -> usize {
        self.place
    }

    fn layer(self) -> Layer {
        Layer::Terminal
    }

    /// The refusal's number, 1 to 9.
    fn number(self) -> u8 {
        self.refusal.number()
    }

    fn ends_run(self) -> bool {
        false
    }
}

/// A fault of a played recording.
#[derive(Clone, Copy)]
pub enum PlayerFault {
    Record(RecordFault),
    Terminal(RefusedAt),
}

// By hand, once for each fault: `from_gives` says what the clauses of callers name.
impl From<RecordFault> for PlayerFault {
    ghost from_gives = { λ e r. r ≡ Record e };

    fn from(fault: RecordFault) -> Self {
        Self::Record(fault)
    }
}

impl From<RefusedAt> for PlayerFault {
    ghost from_gives = { λ e r. r ≡ Terminal e };

    fn from(refused: RefusedAt) -> Self {
        Self::Terminal(refused)
    }
}

impl Fault for PlayerFault {
    ghost place = { player_place };

    ghost layer = { player_layer };

    ghost number = { player_number };

    ghost ends_run = { player_ends_run };

    fn place(self) -> usize {
        match self {
            PlayerFault::Record(fault) => fault.place(),
            PlayerFault::Terminal(refused) => refused.place(),
        }
    }

    fn layer(self) -> Layer {
        match self {
            PlayerFault::Record(fault) => fault.layer(),
            PlayerFault::Terminal(refused) => refused.layer(),
        }
    }

    fn number(self) -> u8 {
        match self {
            PlayerFault::Record(fault) => fault.number(),
            PlayerFault::Terminal(refused) => refused.number(),
        }
    }

    fn ends_run(self) -> bool {
        match self {
            PlayerFault::Record(fault) => fault.ends_run(),
            PlayerFault::Terminal(refused) => refused.ends_run(),
        }
    }
}
