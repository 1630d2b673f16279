//! The runs of a CTL by where they end, so that each of its values is found in few steps.
ghost use Rattle.std.specs.Prelude.{◌≡◌, ◌≤◌, ◌<◌, ◌-◌, ℕ, length, get_or, slice_get, IfOk, Some};
ghost use Rattle.df_cells.specs.Kinds.{limit, run_values};
ghost use Rattle.df_machine.specs.RunEnds.{ends_from, ends_of};

use df_cells::kinds::{Kind, Run, Runs};
use df_values::memory::Memory;
use df_values::values::Value;
use std::alloc::Global;
use std::marker::Model;

/// For each run of a CTL how many values there are up to its end.
#[derive(Drop)]
pub struct RunEnds {
    ends: Vec<u32>,
}

impl Model for RunEnds {
    ghost use Rattle.std.specs.Prelude.{List, ℕ};

    ghost Value = { List ℕ };

    ghost view = { λ e. e.ends.items };
}

/// Where so many runs end.
fn ends_of_runs(alloc: Global, runs: &Runs) -> Result<Vec<u32>, Memory>
    requires short { length (run_values runs.now) ≤ 65536 }
    ensures { IfOk result (λ ends. ends.items ≡ ends_from 0 runs.now) }
{
    let all = runs.as_slice();
    let mut ends = Vec::with_capacity(alloc, all.len())?;
    let mut end = 0;
    for run in all {
        end += run.count;
        ends.push(end)?;
    }
    Ok(ends)
}

impl RunEnds {
    /// Where the runs of a cell end: none where it is no CTL. The only error is want of memory.
    pub fn of(alloc: Global, kind: &Kind) -> Result<RunEnds, Memory>
        requires { (m : ℕ) → limit kind.now ≡ Some m → m ≤ 65536 }
        ensures { IfOk result (λ ends. ends ≡ ends_of kind.now) }
    {
        let ends = match kind {
            Kind::Ctl { runs } => ends_of_runs(alloc, runs)?,
            _ => Vec::new(alloc),
        };
        Ok(RunEnds { ends })
    }

    /// How many values the runs have.
    pub fn total(&self) -> u32
        ensures { result ≡ get_or self.now (length self.now - 1) 0 }
    {
        match self.ends.last() {
            Some(end) => *end,
            None => 0,
        }
    }

    /// The number of the run that holds a value, counted from 0, or how many runs there are, where it lies past all.
    fn run_of(&self, turn: u32) -> usize
        ensures most { result ≤ length self.now }
        ensures past { 0 < result → get_or self.now (result - 1) 0 ≤ turn }
        ensures below { result < length self.now → turn < get_or self.now result 0 }
    {
        let mut low = 0;
        let mut high = self.ends.len();
        while low < high {
            let middle = low + (high - low) / 2;
            if self.ends[middle] <= turn {
                low = middle + 1;
            } else {
                high = middle;
            }
        }
        low
    }

    /// The value at a place of the list that the runs stand for, counted from 0.
    pub fn value(&self, runs: &Runs, turn: u32) -> Option<Value>
        requires { self.now ≡ ends_from 0 runs.now }
        ensures { result ≡ slice_get (run_values runs.now) turn }
    {
        let all = runs.as_slice();
        let place = self.run_of(turn);
        if place < all.len() {
            Some(all[place].value)
        } else {
            None
        }
    }
}
