//! Scalars that are held for the turns of a block.
ghost use Rattle.std.specs.Prelude.{◌≡◌, ◌≤◌, IfOk};
ghost use Rattle.df_build_loops.specs.Holds.{held};

use df_cells::kinds::Kind;
use df_labels::graphs::{Flow, Graphs};
use df_labels::patterns::two_parts;
use df_values::memory::Memory;
use std::alloc::Global;

/// Adds the cells that give a scalar once in each of n turns, and gives the number of the first of them, a MERGE. The
/// scalar is the number of a cell that gives one value. The only refusal is want of memory.
pub fn hold<G: Graphs>(alloc: Global, graph: &mut G, scalar: u64, n: u32) -> Result<u64, Memory>
    requires { 2 ≤ n }
    ensures { IfOk result (λ cell. record { graph = G.graph graph.new; cell = cell }
        ≡ held G.keep (G.graph graph.old) scalar n) }
{
    let merge = graph.count();
    // memory ends before the numbers of cells do
    let Some(last) = merge.checked_add(3) else {
        return Err(Memory);
    };
    let first_only = two_parts(alloc, 1, true, n - 1)?;
    let all_but_last = two_parts(alloc, n - 1, true, 1)?;
    graph.cell(
        Kind::Merge,
        &[
            Flow::Cell(merge + 1),
            Flow::Cell(scalar),
            Flow::Cell(merge + 2),
        ],
    )?;
    graph.cell(Kind::Ctl { runs: first_only }, &[])?;
    graph.cell(Kind::Tgate, &[Flow::Cell(last), Flow::Cell(merge)])?;
    graph.cell(Kind::Ctl { runs: all_but_last }, &[])?;
    Ok(merge)
}
