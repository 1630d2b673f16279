//! The cells of accesses.
ghost use Rattle.std.specs.Prelude.{◌≡◌, ◌≤◌, ◌+◌, IfOk, pos};
ghost use Rattle.df_build_access.specs.Elements.{cut, filled, windowed_by, windowed};

use crate::windows::{Array, Window, window_of};
use df_build_cond::ruled::{ruled_gate, ruled_merge};
use df_labels::graphs::{Flow, Graphs};
use df_labels::patterns::three_parts;
use df_values::memory::Memory;
use df_values::values::{ErrorValue, Integer, Value};
use std::alloc::Global;

const MISSING: Value = Value::Error(ErrorValue::MissElt);

/// The elements of a window: the array as it is where all are met, else a gate.
fn cut<G: Graphs>(alloc: Global, graph: &mut G, array: Array, window: Window) -> Result<u64, Memory>
    requires some { 1 ≤ window.kept }
    requires elements { window.skipped + window.kept ≤ array.n }
    ensures { IfOk result (λ cell. record { graph = G.graph graph.new; cell = cell }
        ≡ cut G.keep array window (G.graph graph.old)) }
{
    if window.kept >= array.n {
        return Ok(array.cell);
    }
    let rest = array.n - window.skipped - window.kept;
    let runs = three_parts(alloc, window.skipped, window.kept, rest)?;
    ruled_gate(graph, true, array.cell, runs)
}

/// The elements of a window in n turns, with `miss_elt` in the turns without one: as they are where there is no such
/// turn, else by a MERGE.
fn filled<G: Graphs>(
    alloc: Global,
    graph: &mut G,
    n: u32,
    window: Window,
    cell: u64,
) -> Result<u64, Memory>
    requires some { 1 ≤ window.kept }
    requires turns { window.missed + window.kept ≤ n }
    ensures { IfOk result (λ r. record { graph = G.graph graph.new; cell = r }
        ≡ filled G.keep n window (record { graph = G.graph graph.old; cell = cell })) }
{
    if window.kept >= n {
        return Ok(cell);
    }
    let rest = n - window.missed - window.kept;
    let runs = three_parts(alloc, window.missed, window.kept, rest)?;
    ruled_merge(graph, Flow::Cell(cell), Flow::Constant(MISSING), runs)
}

/// Adds the cells of an access in a block of n turns from the index lo on, and gives its value: in each turn the
/// element at the index and the offset together, or `miss_elt` where the array has none there. The only refusal is want
/// of memory.
#[tactic(auto, unfolding(crate::specs::Elements::windowed_by))]
pub fn window<G: Graphs>(
    alloc: Global,
    graph: &mut G,
    array: Array,
    lo: Integer,
    n: u32,
    offset: i128,
) -> Result<Flow, Memory>
    ensures { IfOk result (λ flow. record { graph = G.graph graph.new; flow = flow }
        ≡ windowed G.keep lo n array offset (G.graph graph.old)) }
{
    let Some(window) = window_of(lo, n, array, offset) else {
        return Ok(Flow::Constant(MISSING));
    };
    let cell = cut(alloc, graph, array, window)?;
    Ok(Flow::Cell(filled(alloc, graph, n, window, cell)?))
}

/// Adds the cells of a pick, and gives its one value: the element at an index, or `miss_elt` where the array has none
/// there. The only refusal is want of memory.
pub fn pick<G: Graphs>(alloc: Global, graph: &mut G, array: Array, at: i128) -> Result<Flow, Memory>
    ensures { IfOk result (λ flow. record { graph = G.graph graph.new; flow = flow }
        ≡ windowed G.keep (pos 0) 1 array at (G.graph graph.old)) }
{
    window(alloc, graph, array, 0, 1, at)
}
