// The two cell groups, and what each has: a value, mostly an amount of power in nanowatts.
ghost use Rattle.std.specs.Prelude.{◌≡◌, ◌+◌, ◌^◌, ◌<◌, Some};
ghost use Rattle.sharing.specs.Groups.{rival, at_group, more_for, if_group};

use std::fmt;

/// A cell group of the terminal.
#[derive(Clone, Copy, Debug, PartialEq, Eq)]
pub enum Group {
    Master,
    Secondary,
}

impl Group {
    /// The other group.
    pub fn rival(self) -> Group
        ensures { result ≡ rival self }
    {
        match self {
            Group::Master => Group::Secondary,
            Group::Secondary => Group::Master,
        }
    }

    /// The amount where `other` is this group, else nothing.
    pub fn own(self, other: Group, amount: u64) -> u64
        ensures { result ≡ if_group self other amount }
    {
        if self == other { amount } else { 0 }
    }
}

impl fmt::Display for Group {
    ghost use Rattle.std.specs.Fmt.{padded};
    ghost use Rattle.sharing.specs.Groups.{group_name};

    ghost output = { λ X. Some (group_name X) };

    ghost styled_output = { λ X style. Some (padded style (group_name X)) };

    fn fmt<W: fmt::Write>(&self, f: &mut fmt::Formatter<W>) -> fmt::Result {
        f.pad(match self {
            Group::Master => "master",
            Group::Secondary => "secondary",
        })
    }
}

/// One value for each group.
// A value for each group is written as a literal of two lines: a closure over the group would hide which is which, and where one
// side can be refused `?` stands in it.
#[derive(Clone, Copy)]
pub struct PerGroup<T> {
    pub master: T,
    pub secondary: T,
}

impl<T: Copy> PerGroup<T> {
    /// A group's value.
    pub fn of(self, group: Group) -> T
        ensures { result ≡ at_group group self }
    {
        match group {
            Group::Master => self.master,
            Group::Secondary => self.secondary,
        }
    }
}

impl PerGroup<u64> {
    /// Nothing for either group.
    pub const NONE: PerGroup<u64> = PerGroup {
        master: 0,
        secondary: 0,
    };

    /// The amounts with `more` for a group.
    pub(crate) fn plus(self, group: Group, more: u64) -> PerGroup<u64>
        requires { at_group group self + more < 2 ^ 64 }
        ensures { result ≡ more_for group more self }
    {
        match group {
            Group::Master => PerGroup {
                master: self.master + more,
                secondary: self.secondary,
            },
            Group::Secondary => PerGroup {
                master: self.master,
                secondary: self.secondary + more,
            },
        }
    }
}

/// A total, and what each group is guaranteed of it.
#[derive(Clone, Copy)]
pub struct Shares {
    pub total: u64,
    pub guarantees: PerGroup<u64>,
}
