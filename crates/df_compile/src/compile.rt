//! Compiling: build, balance, place.
ghost use Rattle.std.specs.Prelude.{◌≡◌, ◌≢◌, ◌≤◌, length, IfOk, IfErr};
ghost use Rattle.df_cells.specs.Cells.{inputs_of};
ghost use Rattle.df_cells.specs.WellFormed.{WellFormed};
ghost use Rattle.df_core.specs.Meaning.{flat_mean};
ghost use Rattle.df_core.specs.Within.{IsFlat};
ghost use Rattle.df_labels.specs.Graphs.{graph_of};
ghost use Rattle.df_labels.specs.ForAll.{RealizesForAll, for_all};
ghost use Rattle.df_stages.specs.Skeletons.{skeleton_of};
ghost use Rattle.df_build_elem.specs.Program.{program_graph, declared_inputs};
ghost use Rattle.df_labels.specs.Finishing.{HasNoBuffers};
ghost use Rattle.df_compile.specs.Placed.{IsFilled, IsOver};
ghost use Rattle.df_compile.specs.Compiled.{IsCompiledFrom, IsUnplaced, IsRefused, Fits};

use df_buffers::placing::{BufferAnswer, place_buffers};
use df_buffers_laws::laws::same_skeletons;
use df_build_elem::build::{BuildAnswer, build};
use df_cancel::balancer::{Balance, Balancer};
use df_cells::cells::Cells;
use df_core::flat::Flat;
use df_paths::paths::Paths;
use df_realize::laws::skeletons_realize;
use df_stages::building::skeleton;
use df_stages::laws::{has_skeletons, is_weakly_dual};
use df_stages::skeleton::Skeleton;
use df_values::memory::Memory;
use std::alloc::Global;

/// The cells of a program, their skeleton, and the balance by which their BUF cells are placed.
#[derive(Drop)]
pub struct Compiled {
    /// The cells, with BUF cells.
    pub cells: Cells,
    /// Their skeleton.
    pub skeleton: Skeleton,
    /// The stages of its nodes, and the flow that certifies that the BUF cells are least.
    pub balance: Balance,
}

/// Why a program is not compiled.
#[derive(Clone, Copy, PartialEq, Eq, Debug)]
pub enum CompileAnswer {
    /// The skeleton would have so many cells, which are more than 4,096.
    TooManySkeletonCells(u64),
    /// With the BUF cells there would be more than 65,536 cells, however they are placed.
    TooManyCells,
    /// Want of memory.
    Memory,
}

impl From<Memory> for CompileAnswer {
    ghost use Rattle.std.specs.Prelude.{◌≡◌};
    ghost use Rattle.df_compile.specs.declared.compile.CompileAnswer.TheVariants.{Memory};

    ghost from_gives = { λ _ answer. answer ≡ Memory };

    fn from(_refused: Memory) -> CompileAnswer {
        CompileAnswer::Memory
    }
}

// Cells with BUF cells, and the balance by which they were placed.
#[derive(Drop)]
struct Filled {
    cells: Cells,
    balance: Balance,
}

// The skeleton of a program, which realizes what the program means.
fn built(alloc: Global, flat: &Flat) -> Result<Cells, CompileAnswer>
    requires flat { IsFlat flat.now }
    requires results { length flat.now.results ≤ 4294967295 }
    ensures graph { IfOk result (λ cells. graph_of cells ≡ program_graph flat.now) }
    ensures well_formed { IfOk result WellFormed }
    ensures plain { IfOk result HasNoBuffers }
    ensures inputs { IfOk result (λ cells. inputs_of cells ≡ declared_inputs flat.now) }
    ensures few { IfOk result (λ cells. length cells ≤ 4096) }
    ensures realizes { IfOk result (λ cells. RealizesForAll cells (for_all (flat_mean flat.now))) }
    ensures refused { IfErr result (λ answer. (answer ≢ CompileAnswer.TooManyCells) × IsRefused flat.now answer) }
{
    skeletons_realize();
    match build(alloc, flat) {
        Ok(cells) => Ok(cells),
        Err(BuildAnswer::TooManySkeletonCells(n)) => Err(CompileAnswer::TooManySkeletonCells(n)),
        Err(BuildAnswer::Memory) => Err(CompileAnswer::Memory),
    }
}

// The cells with BUF cells, as few as there can be.
fn fill(alloc: Global, cells: Cells) -> Result<Filled, CompileAnswer>
    requires well_formed { WellFormed cells }
    requires plain { HasNoBuffers cells }
    requires few { length cells ≤ 4096 }
    ensures filled { IfOk result (λ p. IsFilled cells p.cells p.balance.flow) }
    ensures room { IfOk result (λ _. ¬ IsOver cells) }
    ensures refused { IfErr result (λ answer. IsUnplaced cells answer) }
{
    has_skeletons();
    is_weakly_dual();
    let s = skeleton(alloc, &cells)?;
    let balance = Paths.balance(alloc, &s)?;
    match place_buffers(alloc, cells, &s, &balance) {
        Ok(cells) => Ok(Filled { cells, balance }),
        Err(BufferAnswer::TooManyCells) => Err(CompileAnswer::TooManyCells),
        Err(BufferAnswer::Memory) => Err(CompileAnswer::Memory),
    }
}

/// The cells of a flat program: its skeleton with BUF cells, balanced, with no more BUF cells than any balanced placement has, from
/// stage 0 on. The flow of the balance certifies that. The cells realize what the program means: there are as many outputs as
/// results, and for all valid inputs and every number of firings labels say what each cell takes and answers, by which each OUT
/// takes the whole of its result.
/// It is refused exactly where the skeleton has more than 4,096 cells, or where cells and BUF cells are more than 65,536 however they
/// are placed.
pub fn compile(alloc: Global, flat: &Flat) -> Result<Compiled, CompileAnswer>
    requires flat { IsFlat flat.now }
    requires results { length flat.now.results ≤ 4294967295 }
    ensures compiled { IfOk result (λ it. IsCompiledFrom flat.now it.cells it.balance.flow) }
    ensures skeleton { IfOk result (λ it. it.skeleton ≡ skeleton_of it.cells) }
    ensures fits { IfOk result (λ _. Fits flat.now) }
    ensures refused { IfErr result (IsRefused flat.now) }
{
    same_skeletons();
    let cells = built(alloc, flat)?;
    let it = fill(alloc, cells)?;
    let skeleton = skeleton(alloc, &it.cells)?;
    Ok(Compiled {
        cells: it.cells,
        skeleton,
        balance: it.balance,
    })
}
