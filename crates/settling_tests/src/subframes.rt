// Cells with a data base of 20 dBm and no path loss, so that one resource block wants W(200) = 100,000,000 nW.
use cells::{Cell, CellWants, DataWant, RawSettings, Settings};
use levels::Level;
use settling::settle;
use sharing::{Aligned, Budget, Class};
use std::test::Fail;

const ONE_BLOCK: CellWants = CellWants {
    data: Some(DataWant {
        class: Class::DataOnly,
        blocks: 1,
    }),
    ..CellWants::NONE
};

fn cell_of_20_dbm() -> Result<Cell, Fail> {
    let settings = Settings::try_from(RawSettings {
        loop_kind: 0,
        maximum: 230,
        data_base: 20,
        path_factor: 0,
        control_base: -110,
    })?;
    Ok(Cell::set(settings))
}

#[test]
fn one_cell_a_group(rt: HostRuntime) -> Result<(), Fail> {
    let budget = Budget::new(Level::from_tenths(230).nanowatts(), 50, 50)?;
    let cell = cell_of_20_dbm()?;
    let mut cells = [Cell::unset(); 8];
    cells[0] = cell;
    cells[4] = cell;
    let mut wants = [CellWants::NONE; 8];
    wants[0] = ONE_BLOCK;
    wants[4] = ONE_BLOCK;
    let outcome = settle(&Aligned, &budget, &cells, &wants);
    assert_eq!(rt; outcome.groups.master.wanted, 100_000_000);
    assert_eq!(rt; outcome.groups.master.granted, 99_763_116);
    assert_eq!(rt; outcome.groups.secondary.wanted, 100_000_000);
    assert_eq!(rt; outcome.groups.secondary.granted, 99_763_115);
    Ok(())
}

#[test]
fn two_cells_split_a_rank(rt: HostRuntime) -> Result<(), Fail> {
    let budget = Budget::new(Level::from_tenths(230).nanowatts(), 50, 50)?;
    let cell = cell_of_20_dbm()?;
    let cells = [cell; 8];
    let mut wants = [CellWants::NONE; 8];
    wants[0] = ONE_BLOCK;
    wants[1] = ONE_BLOCK;
    wants[4] = ONE_BLOCK;
    let outcome = settle(&Aligned, &budget, &cells, &wants);
    assert_eq!(rt; outcome.groups.master.wanted, 200_000_000);
    assert_eq!(rt; outcome.groups.master.granted, 99_763_116);
    assert_eq!(rt; outcome.cells[0].data.granted, 49_881_558);
    assert_eq!(rt; outcome.cells[1].data.granted, 49_881_558);
    assert_eq!(rt; outcome.cells[4].data.granted, 99_763_115);
    assert_eq!(rt; outcome.cells[5].data.wanted, 0);
    Ok(())
}
