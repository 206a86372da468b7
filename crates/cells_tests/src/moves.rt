// Moves of a data loop, worked out by hand: base and maximum in the rules' units, path factor 0.
use cells::{Cell, CellWants, Channel, Command, DataWant, LoopKind, Settings, TpcCommand};
use levels::Level;
use sharing::Class;

/// An accumulating cell that was just set.
fn cell_of(maximum: i32, data_base: i16, path_factor: u8) -> Cell {
    Cell::set(Settings {
        loop_kind: LoopKind::Accumulating,
        maximum: Level::from_tenths(maximum),
        data_base,
        path_factor,
        control_base: -100,
    })
}

/// The wants of a subframe for data alone.
fn wants_of(data: Option<u8>) -> CellWants {
    CellWants {
        data: data.map(|blocks| DataWant {
            class: Class::DataOnly,
            blocks,
        }),
        ..CellWants::NONE
    }
}

/// The data loop of a new cell after the subframe in which its first command acts.
fn loop_after(data_base: i16, code: TpcCommand, blocks: Option<u8>) -> i16 {
    let mut cell = cell_of(230, data_base, 0);
    let channel = Channel::Data;
    let _ = cell.queue(0, Command { channel, code });
    cell.move_loops(wants_of(blocks), 4);
    cell.data_loop
}

#[test]
fn no_step_up_at_the_maximum(rt: HostRuntime) {
    assert_eq!(rt; loop_after(23, TpcCommand::Three, None), 0);
    assert_eq!(rt; loop_after(22, TpcCommand::Three, None), 3);
    assert_eq!(rt; loop_after(13, TpcCommand::Three, Some(10)), 3);
}

#[test]
fn no_step_down_at_100_nanowatts(rt: HostRuntime) {
    assert_eq!(rt; loop_after(-40, TpcCommand::Zero, None), 0);
    assert_eq!(rt; loop_after(-39, TpcCommand::Zero, None), -1);
}
