//! What feeds a port, and what kinds have in common.
use df_cells::cells::{Cell, CellId, Cells, Dest, Feed, Port};
use df_cells::kinds::{Family, Kind};
use df_cells::ports::{Dests, Ports};
use df_values::kinds::{Binary, Op};
use df_values::values::{ErrorValue, Value};
use std::test::Fail;

#[test]
fn loaded_ports_hold_a_value(rt: HostRuntime) {
    let value = Value::Int(9_223_372_036_854_775_807);
    assert_eq!(rt; Feed::Loaded(CellId(3), value).loaded_value(), Some(value));
    assert_eq!(rt; Feed::Loaded(CellId(3), value).from_cell(), Some(CellId(3)));
    assert_eq!(rt; Feed::Arc(CellId(3)).loaded_value(), None);
    assert_eq!(rt; Feed::Constant(value).loaded_value(), None);
}

#[test]
fn values_lie_at_their_ports(rt: HostRuntime) -> Result<(), Fail> {
    let alloc = rt.alloc();
    let value = Value::Error(ErrorValue::MissElt);
    let mut ports = Ports::new(alloc);
    ports.push(Feed::Constant(Value::Int(1)))?;
    ports.push(Feed::Loaded(CellId(0), value))?;
    let mut cells = Cells::new(alloc);
    let sum = cells.push(Cell {
        kind: Kind::Add,
        stage: 0,
        mark: 1,
        ports,
        dests: Dests::new(alloc),
    })?;
    for (port, loaded) in [(0, None), (1, Some(value)), (2, None)] {
        let to = Dest {
            cell: sum,
            port: Port(port),
        };
        assert_eq!(rt; cells.loaded_at(to), loaded, "port {port}");
    }
    Ok(())
}

#[test]
fn kinds_have_families(rt: HostRuntime) {
    let families = [
        (Kind::Add, Family::Two(Binary::Operation(Op::Add))),
        (Kind::Fgate, Family::Gate(false)),
        (Kind::Merge, Family::Merge),
        (Kind::Buf, Family::Buf),
    ];
    for (kind, family) in &families {
        assert_eq!(rt; kind.family(), *family);
    }
}
