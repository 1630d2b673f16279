//! The stages of BUF cells.
ghost use Rattle.std.specs.Prelude.{◌≡◌, ◌<◌, ◌+◌, ◌↔◌, ℕ, IsTrue, true, length};
ghost use Rattle.df_cells.specs.Cells as cells_of;
ghost use Rattle.df_cells.specs.Shifts.{back};
ghost use Rattle.df_cells.specs.WellFormed.{WellFormed};
ghost use Rattle.df_stages.specs.Balance.{stage_of};
ghost use Rattle.df_dual_check.specs.Checked.{AllRise, BuffersRise};

use df_cells::cells::{CellId, Cells, Dest, Port};

fn is_buf(cells: &Cells, c: CellId) -> bool
    requires { c.0 < length cells.now }
    ensures { result ≡ cells_of.is_buf cells.now c.0 }
{
    cells.get(c).kind.is_buffer()
}

/// The cell that feeds a BUF cell.
fn before(cells: &Cells, c: CellId) -> CellId
    requires well_formed { WellFormed cells.now }
    requires within { c.0 < length cells.now }
    requires buffer { cells_of.is_buf cells.now c.0 ≡ true }
    ensures back { result.0 ≡ back cells.now c.0 }
    ensures within { result.0 < length cells.now }
{
    let port = Dest {
        cell: c,
        port: Port(0),
    };
    match cells.producer_of(port) {
        Some(u) => u,
        None => unreachable!(),
    }
}

/// Whether a cell is one stage above another.
fn rises(cells: &Cells, c: CellId, from: CellId) -> bool
    requires cell { c.0 < length cells.now }
    requires from { from.0 < length cells.now }
    ensures { IsTrue result ↔ (stage_of cells.now c.0 ≡ stage_of cells.now from.0 + 1) }
{
    u64::from(cells.get(c).stage) == u64::from(cells.get(from).stage) + 1
}

/// Whether the BUF cells that are met on the way back from a cell rise by one stage each.
fn rise_from(cells: &Cells, from: CellId) -> bool
    requires well_formed { WellFormed cells.now }
    requires within { from.0 < length cells.now }
    ensures { IsTrue result ↔ AllRise cells.now from.0 }
{
    let mut here = from;
    for _ in 0..cells.len() {
        if !is_buf(cells, here) {
            return true;
        }
        let next = before(cells, here);
        if !rises(cells, here, next) {
            return false;
        }
        here = next;
    }
    true
}

/// Whether each BUF cell on the arc into a port is one stage above the cell that feeds it.
pub fn buffers_rise(cells: &Cells, to: Dest) -> bool
    requires well_formed { WellFormed cells.now }
    requires within { to.cell.0 < length cells.now }
    ensures { IsTrue result ↔ BuffersRise cells.now to }
{
    match cells.producer_of(to) {
        Some(from) => rise_from(cells, from),
        None => true,
    }
}
