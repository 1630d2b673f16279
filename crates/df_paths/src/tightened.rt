//! Stages from numbers.
use crate::lists::{at, put};
use df_stages::skeleton::{Skeleton, SkeletonArc};
use df_values::memory::Memory;
use std::alloc::Global;

/// The greatest absolute value of a weight.
pub fn greatest_weight(arcs: &[SkeletonArc]) -> i64 {
    let mut greatest = 0;
    for arc in arcs {
        greatest = arc.weight.max(arc.weight.saturating_neg()).max(greatest);
    }
    greatest
}

/// The nodes with their numbers, by rising numbers.
fn by_number(alloc: Global, numbers: &[i64]) -> Result<Vec<(i64, usize)>, Memory> {
    let mut pairs = Vec::with_capacity(alloc, numbers.len())?;
    for node in 0..numbers.len() {
        pairs.push((numbers[node], node))?;
    }
    pairs.sort_unstable();
    Ok(pairs)
}

/// Stages in the order of the numbers, from 0 on, with gaps of at most the greatest weight: a wider gap is on no arc with flow.
pub fn tightened(alloc: Global, s: &Skeleton, numbers: &[i64]) -> Result<Vec<i64>, Memory> {
    let widest = greatest_weight(s.arcs());
    let pairs = by_number(alloc, numbers)?;
    let mut stages = vec![in alloc; 0_i64; numbers.len()]?;
    let mut stage: i64 = 0;
    let mut last = match pairs.first() {
        Some((number, _)) => *number,
        None => 0,
    };
    for (number, node) in &pairs {
        stage = stage.saturating_add(number.saturating_sub(last).min(widest));
        last = *number;
        put(&mut stages, *node, stage);
    }
    Ok(stages)
}
