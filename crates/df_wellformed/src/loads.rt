//! The rule `load`: what is loaded goes round a loop.
ghost use Rattle.std.specs.Prelude.{◌≡◌, ◌<◌, ◌↔◌, ℕ, IsTrue, length, Some};
ghost use Rattle.df_cells.specs.declared.cells.CellId.{CellId};
ghost use Rattle.df_cells.specs.Cells.{from_cell};
ghost use Rattle.df_cells.specs.WellFormed.{NamesWithin, LoadsLoops};
ghost use Rattle.df_wellformed.specs.Failures.{IsLeastFailure};
ghost use Rattle.df_wellformed.specs.Loads.{GoesRound};

use df_cells::cells::{CellId, Cells, Feed};

/// The least cell with a loaded port that is fed by a cell of another mark, or on no loop.
pub fn load_failure(cells: &Cells) -> Option<CellId>
    requires { (c : ℕ) → c < length cells.now → NamesWithin cells.now c }
    ensures { IsLeastFailure (LoadsLoops cells.now) (length cells.now) result }
{
    for c in 0..cells.len() {
        if !loads_loops(cells, CellId(c)) {
            return Some(CellId(c));
        }
    }
    None
}

fn loads_loops(cells: &Cells, c: CellId) -> bool
    requires cell { c.0 < length cells.now }
    requires names { NamesWithin cells.now c.0 }
    ensures { IsTrue result ↔ LoadsLoops cells.now c.0 }
{
    let cell = cells.get(c);
    for feed in cell.ports.as_slice() {
        if !goes_round(cells, cell.mark, *feed) {
            return false;
        }
    }
    true
}

// Whether a port of a cell with this mark may be fed so.
fn goes_round(cells: &Cells, mark: u32, feed: Feed) -> bool
    requires { (u : CellId) → from_cell feed ≡ Some u → u.0 < length cells.now }
    ensures { IsTrue result ↔ GoesRound cells.now mark feed }
{
    match feed {
        Feed::Loaded(producer, _) => mark != 0 && cells.get(producer).mark == mark,
        Feed::Arc(_) | Feed::Constant(_) => true,
    }
}
