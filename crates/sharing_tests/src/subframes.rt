// Subframes shared under both rules. The grants were worked out by a model in another language, with whole numbers of any size.
use levels::Level;
use sharing::{Aligned, Budget, Full, Group, HoldingRule, PerGroup, fits, ranked, share};
use std::process::Abort;
use std::test::Fail;

/// Wants and grants by class, the master group first.
#[derive(Clone, Copy)]
struct Subframe {
    total: i32,
    master: u32,
    secondary: u32,
    wants: [[u64; 2]; 4],
    aligned: [[u64; 2]; 4],
    full: [[u64; 2]; 4],
}

fn per_group([master, secondary]: [u64; 2]) -> PerGroup<u64> {
    PerGroup { master, secondary }
}

fn granted_as<R: HoldingRule>(
    rt: &impl Abort,
    rule: &R,
    budget: &Budget,
    wants: &[PerGroup<u64>; 4],
    grants: &[[u64; 2]; 4],
) -> Result<(), Fail> {
    let mut ranks = ranked(wants);
    let met = fits(rule, budget, PerGroup::NONE, &ranks, Group::Secondary)?;
    let sharing = share(rule, budget, PerGroup::NONE, &mut ranks)?;
    assert_eq!(rt;
        met,
        sharing.granted.secondary == sharing.demand.wanted.secondary
    );
    for (rank, &granted) in ranks.iter().zip(grants.iter().flatten()) {
        assert_eq!(rt; rank.granted, granted);
    }
    Ok(())
}

#[test]
fn grants_of_another_program(rt: HostRuntime) -> Result<(), Fail> {
    for subframe in table() {
        let total = Level::from_tenths(subframe.total).nanowatts();
        let budget = Budget::new(total, subframe.master, subframe.secondary)?;
        let wants = subframe.wants.map(per_group);
        granted_as(&rt, &Aligned, &budget, &wants, &subframe.aligned)?;
        granted_as(&rt, &Full, &budget, &wants, &subframe.full)?;
    }
    Ok(())
}

fn table() -> [Subframe; 10] {
    [
        Subframe {
            total: 230,
            master: 50,
            secondary: 50,
            wants: [[0, 158_489_319], [0, 0], [20_000_000, 0], [0, 0]],
            aligned: [[0, 158_489_319], [0, 0], [20_000_000, 0], [0, 0]],
            full: [[0, 99_763_116], [0, 0], [20_000_000, 0], [0, 0]],
        },
        Subframe {
            total: 230,
            master: 0,
            secondary: 0,
            wants: [[0, 0], [5, 7], [199_526_231, 199_526_231], [1, 1]],
            aligned: [[0, 0], [5, 7], [199_526_219, 0], [0, 0]],
            full: [[0, 0], [5, 7], [199_526_219, 0], [0, 0]],
        },
        Subframe {
            total: 330,
            master: 100,
            secondary: 0,
            wants: [[1_995_262_314, 1_995_262_314], [0, 0], [0, 3], [0, 0]],
            aligned: [[1_995_262_314, 0], [0, 0], [0, 0], [0, 0]],
            full: [[1_995_262_314, 0], [0, 0], [0, 0], [0, 0]],
        },
        Subframe {
            total: -400,
            master: 30,
            secondary: 70,
            wants: [[10, 20], [30, 40], [50, 60], [70, 80]],
            aligned: [[10, 20], [20, 40], [0, 10], [0, 0]],
            full: [[10, 20], [20, 40], [0, 10], [0, 0]],
        },
        Subframe {
            total: 232,
            master: 19,
            secondary: 50,
            wants: [
                [38_888_934, 196_327_743],
                [0, 5_032_582],
                [0, 12_175_294],
                [0, 338_564_711],
            ],
            aligned: [[38_888_934, 170_040_679], [0, 0], [0, 0], [0, 0]],
            full: [[38_888_934, 169_232_987], [0, 0], [0, 0], [0, 0]],
        },
        Subframe {
            total: 299,
            master: 7,
            secondary: 73,
            wants: [
                [0, 100_035_544],
                [71_497_685, 0],
                [662_459_676, 221_310_449],
                [0, 209_230_569],
            ],
            aligned: [
                [0, 100_035_544],
                [71_497_685, 0],
                [375_162_973, 221_310_449],
                [0, 209_230_569],
            ],
            full: [
                [0, 100_035_544],
                [71_497_685, 0],
                [192_356_365, 221_310_449],
                [0, 209_230_569],
            ],
        },
        Subframe {
            total: 166,
            master: 72,
            secondary: 1,
            wants: [
                [10_385_257, 11_415_217],
                [13_039_735, 9_824_097],
                [0, 0],
                [40_298_754, 46_100_526],
            ],
            aligned: [
                [10_385_257, 11_415_217],
                [13_039_735, 1_383_253],
                [0, 0],
                [9_485_356, 0],
            ],
            full: [
                [10_385_257, 11_415_217],
                [13_039_735, 1_383_253],
                [0, 0],
                [9_485_356, 0],
            ],
        },
        Subframe {
            total: 264,
            master: 36,
            secondary: 9,
            wants: [
                [31_693_041, 44_281_677],
                [40_798_037, 0],
                [365_203_600, 94_000_295],
                [0, 509_059_210],
            ],
            aligned: [
                [31_693_041, 44_281_677],
                [40_798_037, 0],
                [319_743_077, 0],
                [0, 0],
            ],
            full: [
                [31_693_041, 44_281_677],
                [40_798_037, 0],
                [319_743_077, 0],
                [0, 0],
            ],
        },
        Subframe {
            total: 320,
            master: 8,
            secondary: 7,
            wants: [
                [392_538_177, 2_482_260_147],
                [441_267_508, 1_656_961_615],
                [186_297_031, 721_762_278],
                [0, 0],
            ],
            aligned: [[392_538_177, 1_192_355_015], [0, 0], [0, 0], [0, 0]],
            full: [[392_538_177, 1_192_355_015], [0, 0], [0, 0], [0, 0]],
        },
        Subframe {
            total: 213,
            master: 50,
            secondary: 25,
            wants: [
                [0, 215_631_118],
                [18_645_468, 149_476_169],
                [192_613_800, 0],
                [0, 0],
            ],
            aligned: [[0, 67_448_144], [18_645_468, 0], [48_802_676, 0], [0, 0]],
            full: [[0, 67_448_144], [18_645_468, 0], [48_802_676, 0], [0, 0]],
        },
    ]
}
