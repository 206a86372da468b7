// What of a cell's powers ranks in each class.
ghost use Rattle.std.specs.Prelude.{◌≡◌, ◌*◌, ◌≤◌};
ghost use Rattle.std.specs.List.{AllByRecursion};
ghost use Rattle.sharing.specs.declared.groups.Group.TheVariants.{Master, Secondary};
ghost use Rattle.settling.specs.Classes.{if_class, class_of_control, class_of_data, class_of_sounding, in_class, class_want, Bounded, BothBounded, four_from, group_cells, class_pair, class_wants};

use cells::{CellWants, Powers};
use sharing::{Class, PerGroup};
use std::array;

/// What a subframe asks of a cell: its wants, and their powers in nanowatts.
#[derive(Clone, Copy)]
pub struct CellDemand {
    pub wants: CellWants,
    pub powers: Powers,
}

/// The power where the want is of the class, else nothing.
pub(crate) fn power_in(class: Class, of: Option<Class>, power: u64) -> u64
    ensures { result ≡ if_class class of power }
{
    if of == Some(class) { power } else { 0 }
}

impl CellDemand {
    // A method for each kind of want: they are of three types, and a trait over the field that two of them share would be longer.

    /// The class of the control want.
    pub(crate) fn control_class(&self) -> Option<Class>
        ensures { result ≡ class_of_control self.now.wants.control }
    {
        self.wants.control.map(|want| want.class)
    }

    /// The class of the data want.
    pub(crate) fn data_class(&self) -> Option<Class>
        ensures { result ≡ class_of_data self.now.wants.«data» }
    {
        self.wants.data.map(|want| want.class)
    }

    /// The class of the sounding want.
    pub(crate) fn sounding_class(&self) -> Option<Class>
        ensures { result ≡ class_of_sounding self.now.wants.sounding }
    {
        self.wants.sounding.map(|_| Class::Sounding)
    }

    /// What the cell wants in a class.
    fn wanted_in(&self, class: Class) -> u64
        requires { Bounded self.now }
        ensures value { result ≡ in_class class self.now }
        ensures most { result ≤ 3 * 9772372209 }
    {
        let control = power_in(class, self.control_class(), self.powers.control);
        let data = power_in(class, self.data_class(), self.powers.data);
        let sounding = power_in(class, self.sounding_class(), self.powers.sounding);
        control + data + sounding
    }
}

/// What four cells want in a class together.
fn wanted_together(class: Class, cells: &[CellDemand; 4]) -> u64
    requires { AllByRecursion Bounded cells.now }
    ensures { result ≡ class_want class cells.now }
{
    // Tried as `map` and `sum`, alone, with lemmas named here, and with the bound asked of the caller: no proof closed.
    let mut sum = 0;
    for cell in cells {
        sum += cell.wanted_in(class);
    }
    sum
}

/// What each group wants in a class.
// Two lines for two groups, as is told at `PerGroup`.
fn pair_in(class: Class, demands: &PerGroup<[CellDemand; 4]>) -> PerGroup<u64>
    requires { BothBounded demands.now }
    ensures { result ≡ class_pair class demands.now.master demands.now.secondary }
{
    PerGroup {
        master: wanted_together(class, &demands.master),
        secondary: wanted_together(class, &demands.secondary),
    }
}

/// What each group wants in classes 1 to 4.
pub(crate) fn wants_by_class(demands: &PerGroup<[CellDemand; 4]>) -> [PerGroup<u64>; 4]
    requires { BothBounded demands.now }
    ensures { result ≡ class_wants demands.now.master demands.now.secondary }
{
    [
        pair_in(Class::Acknowledgement, demands),
        pair_in(Class::ControlInformation, demands),
        pair_in(Class::DataOnly, demands),
        pair_in(Class::Sounding, demands),
    ]
}

/// What a subframe asks of four cells, from the first of them on.
fn four_from(wants: &[CellWants; 8], powers: &[Powers; 8], first: usize) -> [CellDemand; 4]
    requires { first ≤ 4 }
    ensures { result ≡ four_from wants.now powers.now first }
{
    array::from_fn(|place| CellDemand {
        wants: wants[first + place],
        powers: powers[first + place],
    })
}

/// What a subframe asks of the cells of each group: 0 to 3 are the master group's, 4 to 7 the secondary's.
// The wants come from the terminal and the powers from `wanted_all`, each an array of eight; from here on they go together.
pub(crate) fn demands(wants: &[CellWants; 8], powers: &[Powers; 8]) -> PerGroup<[CellDemand; 4]>
    ensures master { result.master ≡ group_cells Master wants.now powers.now }
    ensures secondary { result.secondary ≡ group_cells Secondary wants.now powers.now }
{
    PerGroup {
        master: four_from(wants, powers, 0),
        secondary: four_from(wants, powers, 4),
    }
}
