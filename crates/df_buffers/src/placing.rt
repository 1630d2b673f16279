//! BUF cells placed on the arcs of a skeleton.
ghost use Rattle.std.specs.Prelude.{◌≡◌, ◌+◌, ◌≤◌, ◌↔◌, pos, ◌+ℤ◌, ◌<ℤ◌, ◌≤ℤ◌, All, length, IfOk, IsTrue};
ghost use Rattle.df_cancel.specs.Balances.{numbered, IsBalance};
ghost use Rattle.df_cells.specs.WellFormed.{WellFormed};
ghost use Rattle.df_stages.specs.Flows.{EndsWithin, total_excess};
ghost use Rattle.df_stages.specs.Skeletons.{arcs, nodes, skeleton_of};
ghost use Rattle.df_buffers_laws.specs.Insertions.{ports_to_buffer};
ghost use Rattle.df_labels.specs.Finishing.{HasNoBuffers};
ghost use Rattle.df_buffers_laws.specs.Placed.{AreMade, ArePlaced};
ghost use Rattle.df_buffers.specs.Staging.{IsStage};

use crate::excesses::{ports_to_buffer, total_excess};
use crate::inserting::insert_all;
use crate::staging::{node_stages, push_buffer_stages, set_stages};
use df_buffers_laws::laws::{
    counts_ports, ends_at_ports, keeps_arcs, places_buffers, stand_on_arcs,
};
use df_cancel::balancer::Balance;
use df_cells::cells::{Cells, Dest};
use df_labels::builder::Builder;
use df_stages::skeleton::{Skeleton, SkeletonArc};
use df_values::memory::Memory;
use std::alloc::Global;

/// How many cells there may be.
const MOST_CELLS: i128 = 65536;

/// Why no BUF cells are placed.
#[derive(Clone, Copy, PartialEq, Eq, Debug)]
pub enum BufferAnswer {
    /// With the BUF cells there would be more than 65,536 cells.
    TooManyCells,
    /// Want of memory.
    Memory,
}

impl From<Memory> for BufferAnswer {
    ghost use Rattle.std.specs.Prelude.{◌≡◌};
    ghost use Rattle.df_buffers.specs.declared.placing.BufferAnswer.TheVariants.{Memory};

    ghost from_gives = { λ _ answer. answer ≡ Memory };

    fn from(_refused: Memory) -> BufferAnswer {
        BufferAnswer::Memory
    }
}

/// The cells with BUF cells on the arcs of their skeleton `s`, as many on each as its excess by the stages of the balance, each at
/// the consumer's end. They are numbered behind all other cells, in the order of the ports at which their arcs end. A cell has the
/// stage of its node, and a BUF cell a stage above that of what feeds it. Labels, loaded values and loops stay as they were. On a
/// refusal the cells are dropped. The time is linear in the cells, arcs and BUF cells.
pub fn place_buffers(
    alloc: Global,
    cells: Cells,
    s: &Skeleton,
    b: &Balance,
) -> Result<Cells, BufferAnswer>
    requires well_formed { WellFormed cells }
    requires plain { HasNoBuffers cells }
    requires skeleton { s.now ≡ skeleton_of cells }
    requires balance { IsBalance s.now b.now.stages b.now.flow }
    requires small { All (λ stage. stage ≤ℤ pos 4000000000) b.now.stages }
    ensures placed { IfOk result (λ new. ArePlaced cells new b.now.stages b.now.flow) }
    ensures too_many { (result ≡ Err BufferAnswer.TooManyCells)
        ↔ (pos 65536 <ℤ (pos (length cells) +ℤ total_excess (numbered b.now.stages) s.now.arcs)) }
{
    let stages = b.stages.as_slice();
    let arcs = s.arcs();
    if !have_room(&cells, stages, arcs) {
        return Err(BufferAnswer::TooManyCells);
    }
    counts_ports();
    places_buffers();
    let ports = ports_to_buffer(alloc, stages, arcs)?;
    Ok(place_at(alloc, cells, s, stages, ports.as_slice())?)
}

// Whether the cells and as many BUF cells as the excesses are few enough.
fn have_room(cells: &Cells, stages: &[i64], arcs: &[SkeletonArc]) -> bool
    requires ends { EndsWithin (length stages.now) arcs.now }
    requires few { length arcs.now ≤ 196608 }
    ensures { IsTrue result ↔ ((pos (length cells.now) +ℤ total_excess (numbered stages.now) arcs.now) ≤ℤ pos 65536) }
{
    i128::from(cells.len()) + total_excess(stages, arcs) <= MOST_CELLS
}

// Places BUF cells at these ports, and gives all cells their stages.
fn place_at(
    alloc: Global,
    cells: Cells,
    s: &Skeleton,
    stages: &[i64],
    ports: &[Dest],
) -> Result<Cells, Memory>
    requires well_formed { WellFormed cells }
    requires plain { HasNoBuffers cells }
    requires skeleton { s.now ≡ skeleton_of cells }
    requires each { length stages.now ≡ length (nodes cells) }
    requires small { All IsStage stages.now }
    requires ports { ports.now ≡ ports_to_buffer (arcs cells) (numbered stages.now) }
    requires room { length cells + length ports.now ≤ 65536 }
    ensures { IfOk result (λ new. AreMade cells new (numbered stages.now)) }
{
    ends_at_ports();
    keeps_arcs();
    stand_on_arcs();
    let mut table = node_stages(alloc, &cells, s, stages)?;
    let mut builder = Builder::of(alloc, cells);
    insert_all(&mut builder, ports)?;
    let mut new = builder.finish()?;
    push_buffer_stages(&new, &mut table)?;
    set_stages(&mut new, table.as_slice());
    Ok(new)
}
