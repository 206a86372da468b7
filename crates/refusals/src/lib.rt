// Why a call is refused, and which of several reasons is the one that is answered.

#![tactic(auto)]

ghost use Rattle.std.specs.Prelude.{◌≡◌};
ghost use Rattle.refusals.specs.Numbers.{number_of};
ghost use Rattle.refusals.specs.First.{when, first_that_holds, refused_or, FirstThatHolds};

/// Why a call is refused. Each discriminant is the number that the refusal answers with.
#[derive(Clone, Copy, PartialEq, Eq, Debug)]
pub enum Refusal {
    /// There is no cell of this number.
    NoSuchCell = 1,
    /// A field is out of its range, or there are too many claims.
    OutOfRange = 2,
    /// The cell has no settings yet.
    CellNotSet = 3,
    /// Control power is for primary cells alone.
    NotPrimary = 4,
    /// A subframe is open or not yet done with.
    Busy = 5,
    /// The same want or command was given before.
    GivenAlready = 6,
    /// The two percentages come to more than 100 together.
    PercentagesAbove100 = 7,
    /// There is no such subframe in the state that the ticket says.
    NoSuchSubframe = 8,
    /// As many subframes are settled as a terminal ever settles.
    NoMoreSubframes = 9,
}

impl Refusal {
    /// The refusal's number.
    // A method and no `From`: `refusal.number()` says what the number is, which `u8::from(refusal)` would not.
    pub fn number(self) -> u8
        ensures { result ≡ number_of self }
    {
        self as u8
    }

    /// The refusal where its condition holds, else none.
    pub fn when(self, holds: bool) -> Option<Refusal>
        ensures { result ≡ when holds self }
    {
        holds.then_some(self)
    }
}

/// The refusal of the first condition that holds, or none where no condition holds.
pub fn first_refusal(conditions: &[Option<Refusal>]) -> Option<Refusal>
    ensures value { result ≡ first_that_holds conditions.now }
    ensures refused_exactly { FirstThatHolds conditions.now result }
{
    let mut found = None;
    for refusal in conditions {
        found = found.or(*refusal);
    }
    found
}

/// Refuses by the first condition that holds.
pub fn refuse_first(conditions: &[Option<Refusal>]) -> Result<(), Refusal>
    ensures { result ≡ refused_or (first_that_holds conditions.now) tt }
{
    match first_refusal(conditions) {
        Some(refusal) => Err(refusal),
        None => Ok(()),
    }
}
