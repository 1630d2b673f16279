//! The skeleton of a flat program: its cells, and how many they are.
ghost use Rattle.std.specs.Prelude.{◌≡◌, ◌≤◌, ◌<◌, ℕ, false, length, IfOk, IfErr};
ghost use Rattle.df_cells.specs.Cells.{cell_at, inputs_of, is_buf};
ghost use Rattle.df_cells.specs.Paths.{HasMarks};
ghost use Rattle.df_cells.specs.WellFormed.{WellFormed};
ghost use Rattle.df_labels.specs.Graphs.{graph_of};
ghost use Rattle.df_core.specs.Within.{HaveRanges, IsFlat};
ghost use Rattle.df_build_elem.specs.Program.{program_graph, census, declared_inputs};
ghost use Rattle.df_build_elem.specs.Refusals.{IsRefused};

use crate::laws::{programs_count_the_same, programs_have_arcs, skeletons_are_well_formed};
use crate::program::program_on;
use df_cells::cells::Cells;
use df_core::flat::Flat;
use df_labels::builder::Builder;
use df_labels::graphs::{Counter, Graphs};
use df_values::memory::Memory;
use std::alloc::Global;

/// The most cells that a skeleton may have.
pub const SKELETON_CELLS: u64 = 4096;

/// Why there is no skeleton.
#[derive(Clone, Copy, PartialEq, Eq, Debug)]
pub enum BuildAnswer {
    /// It would have so many cells, which are more than 4,096.
    TooManySkeletonCells(u64),
    /// There is not enough memory.
    Memory,
}

/// How many cells the skeleton of a flat program has. None is made.
///
/// The ranges of the program have to be within the limits, and there have to be at most 4,294,967,295 results. The only
/// refusal is want of memory.
pub fn census(alloc: Global, flat: &Flat) -> Result<u64, Memory>
    requires ranges { HaveRanges flat.now.blocks }
    requires results { length flat.now.results ≤ 4294967295 }
    ensures { IfOk result (λ n. n ≡ census flat.now) }
{
    programs_count_the_same();
    let counted = program_on(alloc, Counter::new(alloc), flat)?;
    Ok(counted.count())
}

// The skeleton without destinations and marks.
fn skeleton(alloc: Global, flat: &Flat) -> Result<Builder, Memory>
    requires ranges { HaveRanges flat.now.blocks }
    requires results { length flat.now.results ≤ 4294967295 }
    ensures { IfOk result (λ graph. graph ≡ program_graph flat.now) }
{
    program_on(alloc, Builder::new(alloc), flat)
}

/// The skeleton of a flat program, of stage 0, with destinations and right marks. The cells are counted first, and made
/// only where they are few.
///
/// Names of parameters have to differ, the ranges to be within the limits, and there have to be at most 4,294,967,295
/// results. `TooManySkeletonCells` comes exactly where the census is over 4,096, unless memory ends before.
pub fn build(alloc: Global, flat: &Flat) -> Result<Cells, BuildAnswer>
    requires flat { IsFlat flat.now }
    requires results { length flat.now.results ≤ 4294967295 }
    ensures graph { IfOk result (λ cells. graph_of cells ≡ program_graph flat.now) }
    ensures well_formed { IfOk result WellFormed }
    ensures marks { IfOk result HasMarks }
    ensures stage { IfOk result (λ cells. (c : ℕ) → (cell_at cells c).stage ≡ 0) }
    ensures plain { IfOk result (λ cells. (c : ℕ) → c < length cells → is_buf cells c ≡ false) }
    ensures inputs { IfOk result (λ cells. inputs_of cells ≡ declared_inputs flat.now) }
    ensures few { IfOk result (λ cells. length cells ≤ 4096) }
    ensures err { IfErr result (IsRefused flat.now) }
{
    programs_have_arcs();
    skeletons_are_well_formed();
    let Ok(count) = census(alloc, flat) else {
        return Err(BuildAnswer::Memory);
    };
    if count > SKELETON_CELLS {
        return Err(BuildAnswer::TooManySkeletonCells(count));
    }
    let Ok(graph) = skeleton(alloc, flat) else {
        return Err(BuildAnswer::Memory);
    };
    match graph.finish() {
        Ok(cells) => Ok(cells),
        Err(_) => Err(BuildAnswer::Memory),
    }
}
