//! The stages of the cells on arcs and in nodes.
ghost use Rattle.std.specs.Prelude.{◌≡◌, ◌<◌, ◌↔◌, IsTrue, MatchOption, All, Some, pos, ◌+ℤ◌, ◌-ℤ◌, length};
ghost use Rattle.df_cells.specs.declared.cells.CellId.{CellId};
ghost use Rattle.df_cells.specs.Cells.{producer_of};
ghost use Rattle.df_cells.specs.WellFormed.{WellFormed};
ghost use Rattle.df_stages.specs.Flows.{arc_length};
ghost use Rattle.df_stages.specs.Skeletons as skeletons;
ghost use Rattle.df_stages.specs.Skeletons.{skeleton_of};
ghost use Rattle.df_stages.specs.Balance.{rise_of, stage_of};
ghost use Rattle.df_dual_check.specs.Checked.{IsBalancedAt, IsFirstUnbalanced, IsLevel, IsFirstOff};

use crate::rising::buffers_rise;
use df_cells::cells::{CellId, Cells, Dest};
use df_stages::laws;
use df_stages::origins::origin_of;
use df_stages::skeleton::{Skeleton, SkeletonArc};

/// Whether a stage is above another by a weight and so many BUF cells.
fn is_above(to: u32, from: u32, weight: i64, buffers: u32) -> bool
    ensures { IsTrue result ↔ (pos to -ℤ pos from ≡ weight +ℤ pos buffers) }
{
    i128::from(to) - i128::from(from) == i128::from(weight) + i128::from(buffers)
}

/// Whether the stage rises along an arc by its weight and its BUF cells, from the cell at which it begins.
fn is_long(cells: &Cells, arc: &SkeletonArc) -> bool
    requires well_formed { WellFormed cells.now }
    requires name { arc.now.name.cell.0 < length cells.now }
    ensures { IsTrue result ↔ ((u : CellId) → producer_of cells.now arc.now.name ≡ Some u → rise_of cells.now arc.now u ≡ arc_length arc.now) }
{
    let Some(from) = cells.producer_of(arc.name) else {
        return true;
    };
    let begins = origin_of(cells, from).cell;
    let to = cells.get(arc.name.cell).stage;
    is_above(to, cells.get(begins).stage, arc.weight, arc.buffers)
}

/// Whether the stages agree on an arc and on the BUF cells that stand on it.
fn is_balanced_at(cells: &Cells, arc: &SkeletonArc) -> bool
    requires well_formed { WellFormed cells.now }
    requires name { arc.now.name.cell.0 < length cells.now }
    ensures { IsTrue result ↔ IsBalancedAt cells.now arc.now }
{
    is_long(cells, arc) && buffers_rise(cells, arc.name)
}

/// The first arc on which the stages don't agree.
pub fn first_unbalanced(s: &Skeleton, cells: &Cells) -> Option<Dest>
    requires well_formed { WellFormed cells.now }
    requires skeleton { s.now ≡ skeleton_of cells.now }
    ensures { MatchOption result (All (IsBalancedAt cells.now) (skeletons.arcs cells.now)) (IsFirstUnbalanced cells.now) }
{
    laws::has_skeletons();
    let arcs = s.arcs();
    for arc in arcs {
        if !is_balanced_at(cells, arc) {
            return Some(arc.name);
        }
    }
    None
}

/// Whether a cell has the stage of another.
fn same_stage(cells: &Cells, c: CellId, d: CellId) -> bool
    requires first { c.0 < length cells.now }
    requires second { d.0 < length cells.now }
    ensures { IsTrue result ↔ (stage_of cells.now c.0 ≡ stage_of cells.now d.0) }
{
    cells.get(c).stage == cells.get(d).stage
}

/// The least cell whose stage isn't that of its node's least cell.
pub fn first_off(s: &Skeleton, cells: &Cells) -> Option<CellId>
    requires well_formed { WellFormed cells.now }
    requires skeleton { s.now ≡ skeleton_of cells.now }
    ensures { MatchOption result (IsLevel cells.now) (IsFirstOff cells.now) }
{
    laws::has_skeletons();
    for c in 0..cells.len() {
        let least = s.least_cell(CellId(c));
        if !same_stage(cells, CellId(c), least) {
            return Some(CellId(c));
        }
    }
    None
}
