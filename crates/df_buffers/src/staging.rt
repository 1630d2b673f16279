//! Stages of cells with BUF cells on their arcs.
ghost use Rattle.std.specs.Prelude.{◌≡◌, ◌+◌, ◌<◌, ◌≤◌, ℕ, All, Some, get_or, length, IfOk, OnOk};
ghost use Rattle.df_cells.specs.declared.cells.CellId.{CellId};
ghost use Rattle.df_cells.specs.Cells.{port_of, producer_of, AreCells};
ghost use Rattle.df_cancel.specs.Balances.{numbered};
ghost use Rattle.df_stages.specs.Skeletons.{nodes, skeleton_of};
ghost use Rattle.df_labels.specs.Finishing.{HasNoBuffers};
ghost use Rattle.df_buffers.specs.Staging.{AreNodeStages, AreBufferStages, IsBehind, IsStage, StagedSoFar};

use df_buffers_laws::laws::counts_nodes;
use df_cells::cells::{CellId, Cells, Dest, Port};
use df_stages::skeleton::Skeleton;
use df_values::memory::Memory;
use std::alloc::Global;

/// The stages of the cells of a skeleton: each has that of its node. The only error is want of memory.
pub fn node_stages(
    alloc: Global,
    cells: &Cells,
    s: &Skeleton,
    stages: &[i64],
) -> Result<Vec<u32>, Memory>
    requires skeleton { s.now ≡ skeleton_of cells.now }
    requires plain { HasNoBuffers cells.now }
    requires each { length stages.now ≡ length (nodes cells.now) }
    requires small { All IsStage stages.now }
    ensures { IfOk result (λ table. AreNodeStages cells.now (numbered stages.now) (length cells.now) table.items) }
{
    counts_nodes();
    let mut table = Vec::new(alloc);
    // Nodes are named by their least cells, rising, so a cell that is its own least one is the next node.
    let mut next = 0usize;
    for c in 0..cells.len() {
        let least = s.least_cell(CellId(c));
        if least.0 == c {
            table.push(stages[next] as u32)?;
            next += 1;
        } else {
            let stage = table[least.0 as usize];
            table.push(stage)?;
        }
    }
    Ok(table)
}

/// Adds the stages of BUF cells behind those of the cells before them: one more than what feeds them. The only error is want of
/// memory.
pub fn push_buffer_stages(cells: &Cells, table: &mut Vec<u32>) -> Result<(), Memory>
    requires few { length table.old.items ≤ length cells.now }
    requires behind { (b : ℕ) → length table.old.items ≤ b → b < length cells.now → IsBehind cells.now b }
    requires small { (j : ℕ) → j < length table.old.items → get_or table.old.items j 0 ≤ 4000000000 }
    ensures { OnOk result (AreBufferStages cells.now table.old.items (length cells.now) table.new.items) }
{
    let count = cells.len();
    let first = table.len() as u32;
    for b in first..count {
        let stage = next_stage(cells, table.as_slice(), CellId(b));
        table.push(stage)?;
    }
    Ok(())
}

// The stage of the next BUF cell.
fn next_stage(cells: &Cells, table: &[u32], b: CellId) -> u32
    requires cell { b.0 < length cells.now }
    requires few { length cells.now ≤ 65536 }
    requires behind { IsBehind cells.now b.0 }
    requires all { length table.now ≡ b.0 }
    requires small { (j : ℕ) → j < b.0 → get_or table.now j 0 ≤ 4000000000 + j }
    ensures { (u : CellId) → producer_of cells.now (port_of b.0 0) ≡ Some u → result ≡ get_or table.now u.0 0 + 1 }
{
    let at = Dest {
        cell: b,
        port: Port(0),
    };
    match cells.producer_of(at) {
        Some(producer) => table[producer.0 as usize] + 1,
        None => 0,
    }
}

/// Gives each cell its stage.
pub fn set_stages(cells: &mut Cells, stages: &[u32])
    requires { length stages.now ≡ length cells.old }
    ensures staged { StagedSoFar cells.old stages.now (length cells.old) cells.new }
    ensures cells { AreCells cells.new }
{
    for c in 0..cells.len() {
        cells.set_stage(CellId(c), stages[c as usize]);
    }
}
