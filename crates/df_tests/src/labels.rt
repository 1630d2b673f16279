//! A loop that is built port by port.
ghost use Rattle.std.specs.Prelude.{◌≡◌, ◌<◌, length, IfOk};

use df_cells::cells::{CellId, Cells, Dest, Feed, Port};
use df_cells::kinds::Kind;
use df_labels::builder::Builder;
use df_values::memory::Memory;
use df_values::name::Name;
use df_values::values::{Basic, ErrorValue, Value};
use std::alloc::Global;
use std::test::Fail;

fn port(cell: CellId, port: u8) -> Dest
    ensures { result ≡ record { cell = cell; port = record { 0 = port } } }
{
    Dest {
        cell,
        port: Port(port),
    }
}

// A sum of an input and of what is made of the sum itself.
fn looped(alloc: Global) -> Result<Cells, Memory>
    ensures { IfOk result (λ cells. length cells ≡ 3) }
{
    let mut graph = Builder::new(alloc);
    let input = graph.cell(
        Kind::In {
            name: Name::new(b"A"),
            basic: Basic::Integer,
            length: 1,
        },
        &[],
    )?;
    let later = Feed::Constant(Value::Error(ErrorValue::Undef));
    let sum = graph.cell(Kind::Add, &[Feed::Arc(input), later])?;
    let negation = graph.cell(Kind::Neg, &[Feed::Arc(sum)])?;
    graph.feed(port(sum, 1), Feed::Arc(negation))?;
    graph.finish()
}

#[test]
fn graph_becomes_cells(rt: HostRuntime) -> Result<(), Fail> {
    let cells = looped(rt.alloc())?;
    assert_eq!(rt; cells.len(), 3);
    let (input, sum, negation) = (CellId(0), CellId(1), CellId(2));
    let input_dests = cells.get(input).dests.as_slice();
    assert_eq!(rt; input_dests, [port(sum, 0)].as_slice());
    let sum_dests = cells.get(sum).dests.as_slice();
    assert_eq!(rt; sum_dests, [port(negation, 0)].as_slice());
    let negation_dests = cells.get(negation).dests.as_slice();
    assert_eq!(rt; negation_dests, [port(sum, 1)].as_slice());
    let marks = (
        cells.get(input).mark,
        cells.get(sum).mark,
        cells.get(negation).mark,
    );
    assert_eq!(rt; marks, (0, 1, 1));
    Ok(())
}
