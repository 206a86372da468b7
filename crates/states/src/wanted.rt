// The wants of a subframe, by cell and kind.
ghost use Rattle.std.specs.Prelude.{◌≡◌, ◌≤◌};
ghost use Rattle.settling.specs.AddUp.{claims_in, over_group};
ghost use Rattle.settling.specs.Classes.{no_wants};
ghost use Rattle.states.specs.Wanted.{has_kind, is_single, given_already};

use crate::number::CellNumber;
use cells::{CellWants, Want};
use sharing::{Class, Group};

/// Whether the cell has a want of this one's kind.
fn has_kind(wants: &CellWants, want: Want) -> bool
    ensures { result ≡ has_kind want wants.now }
{
    match want {
        Want::Control(_) => wants.control.is_some(),
        Want::Data(_) => wants.data.is_some(),
        Want::Sounding(_) => wants.sounding.is_some(),
    }
}

/// How many control and data wants of a class a cell has.
fn claims_in(class: Class, wants: &CellWants) -> u8
    ensures value { result ≡ claims_in class wants.now }
    ensures most { result ≤ 2 }
{
    let control = wants.control.is_some_and(|want| want.class == class);
    let data = wants.data.is_some_and(|want| want.class == class);
    u8::from(control) + u8::from(data)
}

/// How many such wants a group has.
fn claims_of(class: Class, wants: &[CellWants; 8], group: Group) -> u8
    ensures { result ≡ over_group (claims_in class) no_wants wants.now group }
{
    // By name: the master group's four come first, and a chain over a part of the array would hide which four.
    let [a, b, c, d, e, f, g, h] = wants.map(|cell| claims_in(class, &cell));
    match group {
        Group::Master => a + b + c + d,
        Group::Secondary => e + f + g + h,
    }
}

/// Whether a group may have only one want of the class.
fn is_single(class: Class) -> bool
    ensures { result ≡ is_single class }
{
    matches!(class, Class::Acknowledgement | Class::ControlInformation)
}

// `cell` and `want` come as one call's fields and go to three functions: a pair of them would be made and taken apart in each.

/// Whether the cell has such a want already, or its group the one want of the class.
pub(crate) fn given_already(wants: &[CellWants; 8], cell: CellNumber, want: Want) -> bool
    ensures { result ≡ given_already wants.now cell want }
{
    let class = want.class();
    has_kind(&wants[cell.place()], want)
        || (is_single(class) && claims_of(class, wants, cell.group()) > 0)
}
