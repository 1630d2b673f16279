//! One run of three cells by every call.
ghost use Rattle.std.specs.Prelude.{◌≡◌, [], ◌∷◌, IfOk, OnOk, codes};
ghost use Rattle.df_values.specs.declared.values.Value.TheVariants.{Int};
ghost use Rattle.std.specs.Prelude.{pos};
ghost use Rattle.df_machine.specs.ThreeCells.{three_cells};

use df_cells::cells::{Cell, CellId, Cells, Dest, Feed, Port};
use df_cells::kinds::Kind;
use df_cells::ports::{Dests, Ports};
use df_cells::schedules::{Choices, Schedule};
use df_machine::laws::three_cells_are_well_formed;
use df_machine::machine::{Machine, NoEvent};
use df_machine::packets::Event;
use df_machine::runs::{RunEnd, ScheduleChooser, run};
use df_values::memory::Memory;
use df_values::name::Name;
use df_values::streams::Streams;
use df_values::values::{Basic, Value};
use std::alloc::Global;
use std::test::Fail;

fn one_dest(alloc: Global, cell: u32) -> Result<Dests, Memory>
    ensures { IfOk result (λ dests. dests ≡ record { cell = record { 0 = cell }; port = record { 0 = 0 } } ∷ []) }
{
    let mut dests = Dests::new(alloc);
    dests.push(Dest {
        cell: CellId(cell),
        port: Port(0),
    })?;
    Ok(dests)
}

// The input A, the sum of its value and 1, and a result of one value.
fn cells_of_one_value(alloc: Global) -> Result<Cells, Memory>
    ensures { IfOk result (λ cells. cells ≡ three_cells (codes "A") 1 1) }
{
    let mut sum_ports = Ports::new(alloc);
    sum_ports.push(Feed::Arc(CellId(0)))?;
    sum_ports.push(Feed::Constant(Value::Int(1)))?;
    let mut result_ports = Ports::new(alloc);
    result_ports.push(Feed::Arc(CellId(1)))?;
    let mut cells = Cells::new(alloc);
    cells.push(Cell {
        kind: Kind::In {
            name: Name::new(b"A"),
            basic: Basic::Integer,
            length: 1,
        },
        stage: 0,
        mark: 0,
        ports: Ports::new(alloc),
        dests: one_dest(alloc, 1)?,
    })?;
    cells.push(Cell {
        kind: Kind::Add,
        stage: 1,
        mark: 0,
        ports: sum_ports,
        dests: one_dest(alloc, 2)?,
    })?;
    cells.push(Cell {
        kind: Kind::Out {
            result: 1,
            length: 1,
        },
        stage: 2,
        mark: 0,
        ports: result_ports,
        dests: Dests::new(alloc),
    })?;
    Ok(cells)
}

fn one_input(alloc: Global) -> Result<Streams, Memory>
    ensures { IfOk result (λ inputs. inputs.lists ≡ (Int (pos 5) ∷ []) ∷ []) }
{
    let mut inputs = Streams::new(alloc);
    inputs.add_stream(1)?;
    inputs.add_value(0, Value::Int(5))?;
    Ok(inputs)
}

#[test]
fn a_constant_is_added(rt: HostRuntime) -> Result<(), Fail> {
    let alloc = rt.alloc();
    let cells = cells_of_one_value(alloc)?;
    assert_eq!(rt; cells.len(), 3);
    assert_eq!(rt; cells.inputs()?.len(), 1);
    let inputs = one_input(alloc)?;
    three_cells_are_well_formed();
    let mut machine = Machine::load(alloc, cells, inputs)?;
    assert_eq!(rt; machine.possible(), 1);
    assert_eq!(rt; machine.event(7), Some(Event::Fire(CellId(0))));
    assert_eq!(rt; machine.step(7), Ok(Event::Fire(CellId(0))));
    let mut choices = Choices::new(alloc);
    choices.push(3)?;
    let schedule = Schedule {
        choices,
        drain: 100,
    };
    let mut chooser = ScheduleChooser::new(&schedule);
    let end = run(&mut machine, &mut chooser, 4);
    assert_eq!(rt;
        end,
        RunEnd {
            events: 4,
            drained: false,
        }
    );
    let end = run(&mut machine, &mut chooser, 1000);
    assert_eq!(rt;
        end,
        RunEnd {
            events: 5,
            drained: true,
        }
    );
    assert_eq!(rt; machine.output(1), [Value::Int(6)].as_slice());
    assert_eq!(rt; machine.fired(CellId(1)), 1);
    assert_eq!(rt; machine.event(0), None);
    assert_eq!(rt; machine.step(0), Err(NoEvent));
    assert_eq!(rt; machine.cells().len(), 3);
    Ok(())
}
