//! Texts of cells read and written again.
use df_cells::cells::{CellId, Dest, Port};
use df_celltext::reader::{CellTextAnswer, read_cells, read_cells_1};
use df_celltext::writer::write_cells;
use std::alloc::Global;
use std::test::Fail;

const SUM: &str =
    "dataflow 2 3\n0 IN A integer 1 stage 0 loop 0 ports dests 1.0\n1 ADD stage 1 loop 0 ports @0 =1 dests 2.0\n2 OUT 1 1 stage 2 loop 0 ports @1 dests\nend\n";

const PATHS: &str =
    "dataflow 2 7\n0 IN A integer 2 stage 0 loop 0 ports dests 1.0 5.0\n1 ADD stage 1 loop 0 ports @0 =1 dests 2.0\n2 MUL stage 2 loop 0 ports @1 =2 dests 3.1\n3 ADD stage 3 loop 0 ports @6 @2 dests 4.0\n4 OUT 1 2 stage 4 loop 0 ports @3 dests\n5 BUF stage 1 loop 0 ports @0 dests 6.0\n6 BUF stage 2 loop 0 ports @5 dests 3.0\nend\n";

const SOURCES: &str =
    "dataflow 2 5\n0 IDX -9223372036854775808 4294967295 stage 7 loop 1 ports dests 4294967295.255\n1 CTL 1*true 3*false 2*-7 1*undef stage 0 loop 0 ports dests\n2 CTL stage 0 loop 0 ports dests\n3 IN if_9 boolean 0 stage 0 loop 0 ports dests\n4 MERGE stage 0 loop 0 ports =zero_divide @3!-9223372036854775808 @4!unknown dests\nend\n";

fn is_same_again(alloc: Global, text: &str) -> bool {
    let Ok(cells) = read_cells(alloc, text.as_bytes()) else {
        return false;
    };
    match write_cells(alloc, &cells) {
        Ok(written) => written.as_slice() == text.as_bytes(),
        Err(_) => false,
    }
}

#[test]
fn texts_are_read_and_written_again(rt: HostRuntime) {
    assert!(rt; is_same_again(rt.alloc(), SUM));
    assert!(rt; is_same_again(rt.alloc(), PATHS));
    assert!(rt; is_same_again(rt.alloc(), SOURCES));
}

// BUF cells have no arcs of their own.
#[test]
fn arcs_of_the_skeleton_end_at_ports(rt: HostRuntime) -> Result<(), Fail> {
    let cells = read_cells(rt.alloc(), PATHS.as_bytes())?;
    let ports = [(1, 0), (2, 0), (3, 0), (3, 1), (4, 0)];
    let arcs = cells.skeleton_arcs()?;
    assert_eq!(rt; arcs.len(), ports.len());
    for (arc, (cell, port)) in arcs.iter().zip(ports.iter()) {
        let wanted = Dest {
            cell: CellId(*cell),
            port: Port(*port),
        };
        assert_eq!(rt; *arc, wanted);
    }
    Ok(())
}

// The same cells in version 1.
const SUM_1: &str =
    "dataflow 1 3\n0 IN A integer 1 stage 0 loop 0 ports dests 1.0\n1 ADD stage 1 loop 0 ports @0 =1 dests 2.0\n2 OUT 1 1 stage 2 loop 0 ports @1 dests\nend\n";

#[test]
fn texts_of_version_1_are_written_as_version_2(rt: HostRuntime) -> Result<(), Fail> {
    let alloc = rt.alloc();
    let cells = read_cells_1(alloc, SUM_1.as_bytes())?;
    assert_eq!(rt; write_cells(alloc, &cells)?.as_slice(), SUM.as_bytes());
    Ok(())
}

#[test]
fn version_1_has_neither_wide_numbers_nor_loaded_ports(rt: HostRuntime) {
    for (text, line) in [
        (SUM, 1),
        (
            "dataflow 1 1\n0 IDX 2147483648 1 stage 0 loop 0 ports dests\nend\n",
            2,
        ),
        (
            "dataflow 1 1\n0 IDX -2147483649 1 stage 0 loop 0 ports dests\nend\n",
            2,
        ),
        (
            "dataflow 1 1\n0 NEG stage 0 loop 1 ports @0!1 dests 0.0\nend\n",
            2,
        ),
    ] {
        assert_eq!(rt;
            read_cells_1(rt.alloc(), text.as_bytes()).err(),
            Some(CellTextAnswer::BadCellText(line))
        );
    }
}
