// Figures worked out on the bench by hand: one list, and one statement over the whole list.

#![tactic(auto)]

ghost use Rattle.std.specs.Prelude.{◌≡◌};
ghost use Rattle.std.specs.List.{AllByRecursion};
ghost use Rattle.figures.specs.Figures.{bench_list, Right};

/// A figure of the bench: one worked case and what the rules give for it. Levels in tenths of a dBm, powers in nanowatts.
#[derive(Clone, Copy)]
pub enum Figure {
    /// The power of a level.
    Power {
        level: i32,
        nanowatts: u64,
    },
    /// What a percentage of a total guarantees.
    Guarantee {
        total: i32,
        percentage: u32,
        nanowatts: u64,
    },
    /// What three claims are granted of a room.
    Split {
        wants: [u64; 3],
        room: u64,
        grants: [u64; 3],
    },
}

/// The figures of the bench, every one of them what the rules give.
pub fn worked_figures() -> [Figure; 11]
    ensures listed { result ≡ bench_list }
    ensures worked_figures { AllByRecursion Right result }
{
    written_list()
}

/// The list as it was worked out.
fn written_list() -> [Figure; 11]
    ensures { result ≡ bench_list }
{
    [
        Figure::Power {
            level: -601,
            nanowatts: 0,
        },
        Figure::Power {
            level: -600,
            nanowatts: 1,
        },
        Figure::Power {
            level: -400,
            nanowatts: 100,
        },
        Figure::Power {
            level: -1,
            nanowatts: 977_237,
        },
        Figure::Power {
            level: 0,
            nanowatts: 1_000_000,
        },
        Figure::Power {
            level: 1,
            nanowatts: 1_023_292,
        },
        Figure::Power {
            level: 230,
            nanowatts: 199_526_231,
        },
        Figure::Power {
            level: 399,
            nanowatts: 9_772_372_209,
        },
        Figure::Guarantee {
            total: 230,
            percentage: 30,
            nanowatts: 59_857_869,
        },
        Figure::Split {
            wants: [5, 5, 5],
            room: 10,
            grants: [4, 3, 3],
        },
        Figure::Split {
            wants: [0, 7, 8],
            room: 10,
            grants: [0, 5, 5],
        },
    ]
}

#[cfg(test)]
mod tests {
    use super::*;
    use levels::Level;
    use sharing::guarantee;
    use split::{DataClaim, split};

    fn claim(want: u64) -> DataClaim {
        DataClaim { want, granted: 0 }
    }

    // Whether the code gives a figure too.
    fn given(figure: Figure) -> bool {
        match figure {
            Figure::Power { level, nanowatts } => Level::from_tenths(level).nanowatts()
                == nanowatts,
            Figure::Guarantee {
                total,
                percentage,
                nanowatts,
            } => guarantee(Level::from_tenths(total).nanowatts(), percentage) == Ok(nanowatts),
            Figure::Split {
                wants,
                room,
                grants,
            } => {
                let mut claims = wants.map(claim);
                split(&mut claims, room).is_ok() && claims.map(|claim| claim.granted) == grants
            }
        }
    }

    #[test]
    fn figures_of_the_bench(rt: HostRuntime) {
        for figure in worked_figures() {
            assert!(rt; given(figure));
        }
    }
}
