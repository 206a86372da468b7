// Data and sounding powers of a cell whose loops are at 0, held to those of ns-3 3.37 (LteUePowerControl, open loop), another program altogether.
// Ours must be at most its power and less than one nanowatt a block below it. One nanowatt is allowed for its rounding. It keeps powers at 100 nW or above.
use cells::{Cell, CellWants, DataWant, RawSettings, Settings, SoundingWant};
use sharing::Class;
use std::process::Abort;
use std::test::Fail;

/// A row of figures: maximum in tenths of a dBm, data base in dBm, path factor in tenths, loss in dB, blocks and power of data, blocks, offset index and power of sounding.
#[derive(Clone, Copy)]
struct Row {
    cell: (i64, i64, u32, u8),
    data: (u8, u64),
    sounding: (u8, u8, u64),
}

/// Whether a power is at most the figure and less than a nanowatt a block below it.
fn close_below(power: u64, figure: u64, blocks: u8) -> bool {
    power <= figure.saturating_add(1)
        && (figure < power.saturating_add(u64::from(blocks)).saturating_add(1) || figure <= 100)
}

fn agrees(rt: &impl Abort, row: Row) -> Result<(), Fail> {
    let (maximum, data_base, path_factor, loss) = row.cell;
    let settings = Settings::try_from(RawSettings {
        loop_kind: 0,
        maximum,
        data_base,
        path_factor,
        control_base: -100,
    })?;
    let mut cell = Cell::set(settings);
    cell.set_loss(loss);
    let (blocks, data_figure) = row.data;
    let (sounded, offset, sounding_figure) = row.sounding;
    let powers = cell.wanted(CellWants {
        data: Some(DataWant {
            class: Class::DataOnly,
            blocks,
        }),
        sounding: Some(SoundingWant {
            blocks: sounded,
            offset,
        }),
        ..CellWants::NONE
    });
    assert!(rt; close_below(powers.data, data_figure, blocks));
    assert!(rt; close_below(powers.sounding, sounding_figure, sounded));
    Ok(())
}

#[test]
fn powers_of_another_program(rt: HostRuntime) -> Result<(), Fail> {
    for row in ROWS {
        agrees(&rt, row)?;
    }
    Ok(())
}

const ROWS: [Row; 40] = [
    Row {
        cell: (110, -50, 7, 21),
        data: (35, 10329),
        sounding: (8, 1, 297),
    },
    Row {
        cell: (290, -36, 10, 10),
        data: (27, 67820),
        sounding: (96, 6, 170714),
    },
    Row {
        cell: (260, -10, 9, 19),
        data: (57, 292330988),
        sounding: (56, 0, 25596938),
    },
    Row {
        cell: (190, -57, 6, 5),
        data: (69, 274),
        sounding: (96, 13, 3035),
    },
    Row {
        cell: (110, -1, 5, 92),
        data: (28, 12589254),
        sounding: (28, 1, 12589254),
    },
    Row {
        cell: (130, -46, 5, 16),
        data: (32, 5071),
        sounding: (96, 15, 241141),
    },
    Row {
        cell: (210, -82, 9, 33),
        data: (66, 388),
        sounding: (48, 12, 1589),
    },
    Row {
        cell: (110, -97, 0, 76),
        data: (54, 100),
        sounding: (56, 1, 100),
    },
    Row {
        cell: (250, -94, 5, 16),
        data: (6, 100),
        sounding: (72, 5, 100),
    },
    Row {
        cell: (190, -38, 7, 16),
        data: (19, 39696),
        sounding: (84, 12, 986913),
    },
    Row {
        cell: (190, -81, 7, 60),
        data: (74, 9316),
        sounding: (24, 0, 269),
    },
    Row {
        cell: (260, -54, 5, 16),
        data: (65, 1632),
        sounding: (4, 13, 798),
    },
    Row {
        cell: (170, -27, 6, 5),
        data: (86, 342372),
        sounding: (72, 14, 3216121),
    },
    Row {
        cell: (330, -45, 4, 16),
        data: (41, 5659),
        sounding: (8, 15, 17502),
    },
    Row {
        cell: (270, -56, 7, 21),
        data: (27, 2001),
        sounding: (68, 8, 7120),
    },
    Row {
        cell: (120, -34, 8, 34),
        data: (56, 11700058),
        sounding: (88, 15, 15848931),
    },
    Row {
        cell: (320, -56, 6, 19),
        data: (29, 1005),
        sounding: (32, 11, 4417),
    },
    Row {
        cell: (150, -125, 10, 80),
        data: (15, 474),
        sounding: (88, 8, 3930),
    },
    Row {
        cell: (170, -7, 0, 69),
        data: (82, 16361150),
        sounding: (36, 0, 640180),
    },
    Row {
        cell: (250, -33, 6, 33),
        data: (33, 1579479),
        sounding: (48, 7, 2297424),
    },
    Row {
        cell: (270, -60, 10, 25),
        data: (43, 13597),
        sounding: (32, 10, 28520),
    },
    Row {
        cell: (210, -55, 6, 64),
        data: (23, 503185),
        sounding: (88, 14, 21601438),
    },
    Row {
        cell: (130, -12, 9, 66),
        data: (48, 19952623),
        sounding: (48, 1, 19952623),
    },
    Row {
        cell: (320, -61, 10, 35),
        data: (52, 130618),
        sounding: (76, 7, 190903),
    },
    Row {
        cell: (220, -38, 0, 91),
        data: (8, 1267),
        sounding: (92, 5, 7307),
    },
    Row {
        cell: (200, -69, 9, 53),
        data: (22, 163088),
        sounding: (88, 9, 1301615),
    },
    Row {
        cell: (160, -110, 9, 100),
        data: (73, 729999),
        sounding: (8, 7, 80000),
    },
    Row {
        cell: (220, -84, 8, 84),
        data: (42, 877504),
        sounding: (56, 12, 6579426),
    },
    Row {
        cell: (280, -67, 10, 26),
        data: (74, 5878),
        sounding: (24, 5, 955),
    },
    Row {
        cell: (110, -61, 4, 47),
        data: (41, 2470),
        sounding: (92, 4, 1966),
    },
    Row {
        cell: (290, -26, 0, 3),
        data: (60, 150713),
        sounding: (80, 0, 17909),
    },
    Row {
        cell: (260, -56, 4, 36),
        data: (25, 1729),
        sounding: (44, 12, 17117),
    },
    Row {
        cell: (200, -74, 5, 71),
        data: (13, 1836),
        sounding: (40, 4, 2004),
    },
    Row {
        cell: (160, -72, 7, 69),
        data: (24, 102379),
        sounding: (68, 4, 102922),
    },
    Row {
        cell: (320, -36, 4, 75),
        data: (51, 12810620),
        sounding: (28, 10, 19822481),
    },
    Row {
        cell: (200, -41, 4, 54),
        data: (58, 665929),
        sounding: (60, 14, 7729497),
    },
    Row {
        cell: (290, -70, 8, 24),
        data: (96, 798),
        sounding: (76, 15, 10018),
    },
    Row {
        cell: (170, -75, 9, 73),
        data: (14, 1644856),
        sounding: (20, 10, 6622622),
    },
    Row {
        cell: (280, -9, 10, 21),
        data: (11, 174338251),
        sounding: (44, 5, 349504423),
    },
    Row {
        cell: (130, -80, 8, 55),
        data: (35, 8791),
        sounding: (28, 9, 14033),
    },
];
