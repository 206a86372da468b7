// What each cell is granted of its group's grants.
ghost use Rattle.std.specs.Prelude.{◌≡◌, map};
ghost use Rattle.sharing.specs.declared.groups.Group.TheVariants.{Master, Secondary};
ghost use Rattle.settling.specs.Grants.{grants_in, data_claim_of, sounding_claim_of, split_grants, grant_for, cell_powers, four_powers};

use crate::classes::{CellDemand, power_in};
use crate::outcome::{CellPowers, Power};
use sharing::{Class, PerGroup, Rank};
use split::{CellClaim, DataClaim, SoundingClaim, split};
use std::array;

/// A group's grants in classes 1 to 4.
// Named, and no array: class 3 would stand at `grants[2]`.
#[derive(Clone, Copy)]
pub struct ClassGrants {
    pub first: u64,
    pub second: u64,
    pub third: u64,
    pub fourth: u64,
}

/// The grants of each group's ranks: the groups take turns, the master's first.
pub(crate) fn grants_by_class(ranks: &[Rank; 8]) -> PerGroup<ClassGrants>
    ensures master { result.master ≡ grants_in Master ranks.now }
    ensures secondary { result.secondary ≡ grants_in Secondary ranks.now }
{
    // By name, so that it is seen how the groups take turns.
    let [
        master_1,
        secondary_1,
        master_2,
        secondary_2,
        master_3,
        secondary_3,
        master_4,
        secondary_4,
    ] = ranks.map(|rank| rank.granted);
    PerGroup {
        master: ClassGrants {
            first: master_1,
            second: master_2,
            third: master_3,
            fourth: master_4,
        },
        secondary: ClassGrants {
            first: secondary_1,
            second: secondary_2,
            third: secondary_3,
            fourth: secondary_4,
        },
    }
}

/// The shares of four claims in a room. A split that is refused grants nothing.
fn shares<const CLASS: u8>(mut claims: [CellClaim<CLASS>; 4], room: u64) -> [u64; 4]
    ensures { result ≡ split_grants (map (λ c. c.want) claims.entry) room }
{
    match split(&mut claims, room) {
        Ok(()) => {
            // Tried as `claims.map(|claim| claim.granted)`: in a function over a constant no proof closed.
            let [a, b, c, d] = claims;
            [a.granted, b.granted, c.granted, d.granted]
        }
        Err(_) => [0; 4],
    }
}

// Two functions: one over the class would have to be given the class, the want and the power, which is all that they are.

/// The shares of four cells in the grant of class 3.
fn data_shares(cells: &[CellDemand; 4], room: u64) -> [u64; 4]
    ensures { result ≡ split_grants (map data_claim_of cells.now) room }
{
    let claims = cells.map(|cell| DataClaim {
        want: power_in(Class::DataOnly, cell.data_class(), cell.powers.data),
        granted: 0,
    });
    shares(claims, room)
}

/// The shares of four cells in the grant of class 4.
fn sounding_shares(cells: &[CellDemand; 4], room: u64) -> [u64; 4]
    ensures { result ≡ split_grants (map sounding_claim_of cells.now) room }
{
    let claims = cells.map(|cell| SoundingClaim {
        want: power_in(Class::Sounding, cell.sounding_class(), cell.powers.sounding),
        granted: 0,
    });
    shares(claims, room)
}

/// What a want is granted: it is alone in its rank in classes 1 and 2, and has a share in class 3.
// A `match` and no `map_or`: each class has an arm of its own.
fn grant_for(class: Option<Class>, grants: ClassGrants, share: u64) -> u64
    ensures { result ≡ grant_for class grants share }
{
    match class {
        Some(Class::Acknowledgement) => grants.first,
        Some(Class::ControlInformation) => grants.second,
        Some(Class::DataOnly) => share,
        Some(Class::Sounding) => 0,
        None => 0,
    }
}

fn powers_of(cell: &CellDemand, grants: ClassGrants, data: u64, sounding: u64) -> CellPowers
    ensures { result ≡ cell_powers cell.now grants «data» sounding }
{
    CellPowers {
        control: Power {
            wanted: cell.powers.control,
            granted: grant_for(cell.control_class(), grants, 0),
        },
        data: Power {
            wanted: cell.powers.data,
            granted: grant_for(cell.data_class(), grants, data),
        },
        sounding: Power {
            wanted: cell.powers.sounding,
            granted: sounding,
        },
    }
}

/// The powers of the four cells of a group.
pub(crate) fn powers_of_four(cells: &[CellDemand; 4], grants: ClassGrants) -> [CellPowers; 4]
    ensures { result ≡ four_powers cells.now grants }
{
    let data = data_shares(cells, grants.third);
    let sounding = sounding_shares(cells, grants.fourth);
    array::from_fn(|place| powers_of(&cells[place], grants, data[place], sounding[place]))
}
