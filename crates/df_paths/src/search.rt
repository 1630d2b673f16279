//! A search from a node that sends to nodes that need flow.
use crate::lists::{at, put};
use crate::open::Open;
use crate::steps::{Step, Steps};
use df_values::memory::Memory;
use std::alloc::Global;
use std::cmp::Reverse;
use std::collections::BinaryHeap;

/// The label of a node to which no walk was found.
const NONE: i64 = i64::MIN;

/// How a node was reached: along which arc, ahead or back, and from which node.
#[derive(Clone, Copy, Debug)]
pub struct Came {
    pub from: usize,
    pub arc: usize,
    pub ahead: bool,
}

/// The walks that a search has found: greatest sums of counts, from one node on.
///
/// The distance of a node is its number less its label, which is that of the beginning and the count of the walk. Nodes are settled by
/// rising distance: those at the present one stand in line, first come first served, and farther ones in a heap, where older entries of
/// a node may remain.
#[derive(Drop)]
pub struct Search {
    labels: Vec<i64>,
    came: Vec<Came>,
    in_line: Vec<bool>,
    line: Vec<usize>,
    heap: BinaryHeap<Reverse<(i64, usize)>>,
    found: Vec<usize>,
}

/// Takes back what a search told of a node.
fn forget(labels: &mut [i64], in_line: &mut [bool], node: usize) {
    put(labels, node, NONE);
    if node < in_line.len() {
        in_line[node] = false;
    }
}

impl Search {
    /// An idle search. The only error is want of memory.
    pub fn new(alloc: Global, nodes: usize) -> Result<Search, Memory> {
        let nowhere = Came {
            from: 0,
            arc: 0,
            ahead: true,
        };
        Ok(Search {
            labels: vec![in alloc; NONE; nodes]?,
            came: vec![in alloc; nowhere; nodes]?,
            in_line: vec![in alloc; false; nodes]?,
            line: Vec::with_capacity(alloc, nodes)?,
            heap: BinaryHeap::new(alloc),
            found: Vec::new(alloc),
        })
    }

    /// The label of a node, by which it is as far as its number is above it.
    pub fn label(&self, node: usize) -> i64 {
        at(&self.labels, node)
    }

    /// The settled nodes that need flow, by rising distance.
    pub fn found(&self) -> &[usize] {
        self.found.as_slice()
    }

    /// The nodes that are settled or at the present distance.
    pub fn line(&self) -> &[usize] {
        self.line.as_slice()
    }

    /// How a node was reached.
    pub fn came(&self, node: usize) -> Option<Came> {
        self.came.get(node).copied()
    }

    fn stand_in_line(&mut self, node: usize) -> Result<(), Memory> {
        if node < self.in_line.len() && !self.in_line[node] {
            self.in_line[node] = true;
            self.line.push(node)?;
        }
        Ok(())
    }

    /// Labels the end of a step, where that is a longer walk than the one before.
    fn relax(&mut self, open: &Open, from: usize, step: &Step, now: i64) -> Result<(), Memory> {
        let label = self.label(from).saturating_add(step.count);
        if label <= self.label(step.to) || !step.ahead && at(&open.flow, step.arc) <= 0 {
            return Ok(());
        }
        put(&mut self.labels, step.to, label);
        if step.to < self.came.len() {
            self.came[step.to] = Came {
                from,
                arc: step.arc,
                ahead: step.ahead,
            };
        }
        let distance = open.distance(step.to, label);
        if distance == now {
            self.stand_in_line(step.to)
        } else {
            Ok(self.heap.push(Reverse((distance, step.to)))?)
        }
    }

    fn relax_all(
        &mut self,
        open: &Open,
        from: usize,
        steps: &[Step],
        now: i64,
    ) -> Result<(), Memory> {
        for step in steps {
            self.relax(open, from, step, now)?;
        }
        Ok(())
    }

    /// The nearest node in the heap that isn't in line, and its distance.
    fn nearest(&mut self) -> Option<(i64, usize)> {
        while let Some(Reverse((distance, node))) = self.heap.pop() {
            if node < self.in_line.len() && !self.in_line[node] {
                return Some((distance, node));
            }
        }
        None
    }

    /// The next node, and its distance.
    fn next(&mut self, place: usize, now: i64) -> Result<Option<(i64, usize)>, Memory> {
        if place < self.line.len() {
            return Ok(Some((now, self.line[place])));
        }
        match self.nearest() {
            Some((distance, node)) => {
                self.stand_in_line(node)?;
                Ok(Some((distance, node)))
            }
            None => Ok(None),
        }
    }

    /// Searches from a node until what is found needs all that the node has to send.
    pub fn run(&mut self, open: &Open, steps: &Steps, start: usize) -> Result<(), Memory> {
        put(&mut self.labels, start, at(&open.numbers, start));
        self.stand_in_line(start)?;
        let mut lack = at(&open.needs, start);
        let mut now = 0;
        for place in 0..open.numbers.len() {
            let Some((distance, node)) = self.next(place, now)? else {
                break;
            };
            now = distance;
            let need = at(&open.needs, node);
            if need > 0 {
                self.found.push(node)?;
                lack = lack.saturating_add(need);
            }
            if lack >= 0 {
                break;
            }
            self.relax_all(open, node, steps.from(node), now)?;
        }
        Ok(())
    }

    /// Makes the search idle again.
    pub fn clear(&mut self) {
        'lines: while let Some(node) = self.line.pop() {
            forget(&mut self.labels, &mut self.in_line, node);
        }
        'entries: while let Some(Reverse((_, node))) = self.heap.pop() {
            forget(&mut self.labels, &mut self.in_line, node);
        }
        self.found.clear();
    }
}
