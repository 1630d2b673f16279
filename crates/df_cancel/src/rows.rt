//! The table of the greatest counts of walks, one row for each number of steps.
ghost use Rattle.std.specs.Prelude.{◌≡◌, ◌<◌, ◌≤◌, ◌^◌, length, All, IfOk, pos, neg_ℤ, ◌+ℤ◌, ◌≤ℤ◌};
ghost use Rattle.df_cancel.specs.Rows.{at_row, StepsWithin, RowWithin, IsNextRow, IsChanged};

use crate::step::Step;
use df_values::memory::Memory;
use std::alloc::Global;

/// The count of a walk to the beginning of a step, and of that step.
pub fn reach(row: &[i64], step: &Step) -> i64
    requires from { step.now.from < length row.now }
    requires row { RowWithin (2 ^ 40) row.now }
    requires low { neg_ℤ (pos (2 ^ 20)) ≤ℤ step.now.count }
    requires high { step.now.count ≤ℤ pos (2 ^ 20) }
    ensures { result ≡ at_row row.now step.now.from +ℤ step.now.count }
{
    row[step.from] + step.count
}

/// A copy of a row, in the place of a spare one if there is one.
pub fn copy_row(alloc: Global, spare: &mut Vec<Vec<i64>>, row: &[i64]) -> Result<Vec<i64>, Memory>
    ensures { IfOk result (λ copy. copy.items ≡ row.now) }
{
    match spare.pop() {
        Some(old) => {
            let mut copy = old;
            copy.clear();
            copy.extend_from_slice(row)?;
            Ok(copy)
        }
        None => Ok(Vec::from_slice(alloc, row)?),
    }
}

/// The greatest counts after one more step, and a node whose count is greater than before, if there is one.
pub fn extend(
    alloc: Global,
    spare: &mut Vec<Vec<i64>>,
    steps: &[Step],
    row: &[i64],
) -> Result<(Vec<i64>, Option<usize>), Memory>
    requires steps { StepsWithin (length row.now) (2 ^ 20) steps.now }
    requires row { RowWithin (2 ^ 40) row.now }
    ensures next { IfOk result (λ r. IsNextRow steps.now row.now r.0.items) }
    ensures changed { IfOk result (λ r. IsChanged row.now r.0.items r.1) }
{
    let mut next = copy_row(alloc, spare, row)?;
    let mut changed = None;
    for step in steps {
        let count = reach(row, step);
        if next[step.to] < count {
            next[step.to] = count;
            changed = Some(step.to);
        }
    }
    Ok((next, changed))
}
