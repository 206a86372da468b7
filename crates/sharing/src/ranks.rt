// The order in which wants are served.
ghost use Rattle.std.specs.Prelude.{◌≡◌};
ghost use Rattle.refusals.specs.Numbers.{StandsFor};
ghost use Rattle.sharing.specs.Ranks.{class_number, rank_of, served_in, by_class};

use crate::groups::{Group, PerGroup};
use refusals::Refusal;

/// What a want carries. Each discriminant is the number of the class, and lower numbers are served first.
#[derive(Clone, Copy, Debug, PartialEq, Eq)]
pub enum Class {
    /// Control or data with HARQ-ACK, or control with a scheduling request.
    Acknowledgement = 1,
    /// Control or data with other control information.
    ControlInformation = 2,
    /// Data with no control information.
    DataOnly = 3,
    /// Sounding.
    Sounding = 4,
}

// By hand: no derive reads an enum from its discriminants.
impl TryFrom<u32> for Class {
    type Error = Refusal;

    ghost try_from_gives = { StandsFor class_number 1 4 };

    /// The class of a number. Refused where it is not 1 to 4.
    fn try_from(number: u32) -> Result<Class, Refusal> {
        match number {
            1 => Ok(Class::Acknowledgement),
            2 => Ok(Class::ControlInformation),
            3 => Ok(Class::DataOnly),
            4 => Ok(Class::Sounding),
            _ => Err(Refusal::OutOfRange),
        }
    }
}

impl Class {
    /// The number of the class.
    // A method and no `From`: `class.number()` says what the number is, which `u8::from(class)` would not.
    pub fn number(self) -> u8
        ensures { result ≡ class_number self }
    {
        self as u8
    }
}

/// What a group wants in a class, and, once it is served, the room there was for it and what it was granted. All in nanowatts.
#[derive(Clone, Copy)]
pub struct Rank {
    pub class: Class,
    pub group: Group,
    pub want: u64,
    pub room: u64,
    pub granted: u64,
}

impl Rank {
    /// A want that is not served yet.
    pub fn new(class: Class, group: Group, want: u64) -> Rank
        ensures { result ≡ rank_of class group want }
    {
        Rank {
            class,
            group,
            want,
            room: 0,
            granted: 0,
        }
    }

    /// Serves the want in a room: it is granted whole where it fits, and else gets the room exactly.
    pub fn serve(&mut self, room: u64)
        ensures { self.new ≡ served_in self.old room }
    {
        self.room = room;
        self.granted = self.want.min(room);
    }
}

/// The wants of classes 1 to 4 in the order of service: by class, and in a class the master group first.
pub fn ranked(wants: &[PerGroup<u64>; 4]) -> [Rank; 8]
    ensures { result ≡ by_class wants.now }
{
    // Written out, so that the order is seen; from an index, class and group would have to be worked out.
    let [first, second, third, fourth] = *wants;
    [
        Rank::new(Class::Acknowledgement, Group::Master, first.master),
        Rank::new(Class::Acknowledgement, Group::Secondary, first.secondary),
        Rank::new(Class::ControlInformation, Group::Master, second.master),
        Rank::new(
            Class::ControlInformation,
            Group::Secondary,
            second.secondary,
        ),
        Rank::new(Class::DataOnly, Group::Master, third.master),
        Rank::new(Class::DataOnly, Group::Secondary, third.secondary),
        Rank::new(Class::Sounding, Group::Master, fourth.master),
        Rank::new(Class::Sounding, Group::Secondary, fourth.secondary),
    ]
}
