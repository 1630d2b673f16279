//! The building of a block: each thing that a term adds, one by one.
ghost use Rattle.std.specs.Prelude.{◌≡◌, length, IfOk, slice_get};
ghost use Rattle.df_cells.specs.Kinds.{port_count, HasCanonicalRuns};
ghost use Rattle.df_labels.specs.Graphs.{Graph};
ghost use Rattle.df_build_terms.specs.Building.{at, crossed, joined, changed, chosen, added, enter, leave, from_local, index_built, previous_built, outer_built, element_built, begun};
ghost use Rattle.df_build_terms.specs.Outer.{flow_at, array_at};
ghost use Rattle.df_build_terms.specs.Parts.{unwound};
ghost use Rattle.df_build_terms.specs.Seen.{building_of};

use crate::building::{Local, Met, Outside, Turns};
use df_build_access::accesses::Accesses;
use df_build_access::elements::window;
use df_build_access::windows::Array;
use df_build_cond::arms::{Arm, cross};
use df_build_cond::gates::merge;
use df_build_cond::kinds::{kind_of, kind_of_one};
use df_build_cond::tables::Table;
use df_build_loops::frames::values_before;
use df_build_loops::holds::hold;
use df_cells::kinds::Kind;
use df_labels::graphs::{Flow, Graphs};
use df_values::kinds::{Binary, Unary};
use df_values::memory::Memory;
use df_values::operators::{apply_binary, apply_unary};
use df_values::values::{ErrorValue, Value};
use std::alloc::Global;

const UNDEF: Flow = Flow::Constant(Value::Error(ErrorValue::Undef));

/// What was made and met so far in a block. Contracts see it as `building_of` it.
#[derive(Drop)]
pub struct Elem<G> {
    alloc: Global,
    graph: G,
    met: Met,
    arms: Vec<Arm>,
}

/// An arm that is still open: its control, and the value of the true side.
#[derive(Clone, Copy, PartialEq, Eq, Debug)]
pub struct Open {
    /// The cell of the control.
    pub control: u64,
    /// The value of the true side.
    pub value: Flow,
}

// A scalar from outside.
fn flow_at(outer: &[Outside], number: usize) -> Flow
    ensures { result ≡ flow_at outer.now number }
{
    match outer.get(number) {
        Some(Outside::Single(flow)) => *flow,
        _ => UNDEF,
    }
}

// An array from outside.
fn array_at(outer: &[Outside], number: usize) -> Array
    ensures { result ≡ array_at outer.now number }
{
    match outer.get(number) {
        Some(Outside::Many(array)) => *array,
        _ => Array {
            cell: 0,
            lo: 0,
            n: 0,
        },
    }
}

// The local of a level.
fn local_at(locals: &[Local], number: usize) -> Option<Local>
    ensures { result ≡ slice_get locals.now number }
{
    locals.get(number).copied()
}

impl<G> Elem<G> {
    /// The beginning of a block: nothing was met, and no arm is open.
    #[tactic(auto, unfolding(crate::specs::Seen::building_of))]
    pub fn new(alloc: Global, graph: G) -> Elem<G>
        ensures { (seen : G → Graph) → building_of seen result ≡ begun (seen graph) }
    {
        Elem {
            alloc,
            graph,
            met: Met {
                index: None,
                previous: None,
                holds: Table::new(alloc),
                accesses: Accesses::new(alloc),
            },
            arms: Vec::new(alloc),
        }
    }

    /// The graph at the end of the block.
    #[tactic(auto, unfolding(crate::specs::Seen::building_of))]
    pub fn into_graph(self) -> G
        ensures { (seen : G → Graph) → seen result ≡ (building_of seen self).graph }
    {
        let Elem { graph, .. } = self;
        graph
    }

    /// Where memory comes from.
    pub fn allocator(&self) -> Global {
        self.alloc
    }

    /// How many arms are open.
    #[tactic(auto, unfolding(crate::specs::Seen::building_of))]
    pub fn depth(&self) -> usize
        ensures { (graph : G → Graph) → result ≡ length (building_of graph self.now).arms }
    {
        self.arms.len()
    }
}

impl<G: Graphs> Elem<G> {
    // One cell more.
    #[tactic(auto, unfolding(crate::specs::Seen::building_of))]
    fn added(&mut self, kind: Kind, flows: &[Flow]) -> Result<Flow, Memory>
        requires ports { length flows.now ≡ port_count kind }
        requires runs { HasCanonicalRuns kind }
        ensures { IfOk result (λ flow. at (building_of G.graph self.new) flow
            ≡ added G.keep (building_of G.graph self.old) kind flows.now) }
    {
        let cell = self.graph.cell(kind, flows)?;
        Ok(Flow::Cell(cell))
    }

    // A value that was built where so many arms were open, inside all that are open now.
    #[tactic(auto, unfolding(crate::specs::Building::crossed, crate::specs::Seen::building_of))]
    fn crossed(&mut self, level: usize, flow: Flow) -> Result<Flow, Memory>
        ensures { IfOk result (λ r. at (building_of G.graph self.new) r
            ≡ crossed G.keep level (building_of G.graph self.old) flow) }
    {
        cross(&mut self.graph, self.arms.as_mut_slice(), level, flow)
    }

    /// Enters an arm.
    #[tactic(auto, unfolding(crate::specs::Seen::building_of))]
    pub fn enter(&mut self, control: u64, side: bool) -> Result<(), Memory>
        ensures { IfOk result (λ _. building_of G.graph self.new ≡ enter control side (building_of G.graph self.old)) }
    {
        self.arms.push(Arm::new(self.alloc, control, side))?;
        Ok(())
    }

    /// Leaves the arm that was entered last.
    #[tactic(auto, unfolding(crate::specs::Seen::building_of))]
    pub fn leave(&mut self)
        ensures { building_of G.graph self.new ≡ leave (building_of G.graph self.old) }
    {
        self.arms.pop();
    }

    /// Two values joined.
    #[tactic(auto, unfolding(crate::specs::Building::joined))]
    pub fn joined(&mut self, with: Binary, left: Flow, right: Flow) -> Result<Flow, Memory>
        ensures { IfOk result (λ flow. at (building_of G.graph self.new) flow
            ≡ joined G.keep with (building_of G.graph self.old) left right) }
    {
        match (left, right) {
            (Flow::Constant(v), Flow::Constant(w)) => Ok(Flow::Constant(apply_binary(with, v, w))),
            _ => self.added(kind_of(with), &[left, right]),
        }
    }

    /// A value changed.
    #[tactic(auto, unfolding(crate::specs::Building::changed))]
    pub fn changed(&mut self, how: Unary, of: Flow) -> Result<Flow, Memory>
        ensures { IfOk result (λ flow. at (building_of G.graph self.new) flow
            ≡ changed G.keep how (building_of G.graph self.old) of) }
    {
        match of {
            Flow::Constant(v) => Ok(Flow::Constant(apply_unary(how, v))),
            Flow::Cell(_) => self.added(kind_of_one(how), &[of]),
        }
    }

    /// A local, inside the arms that were opened since it was built.
    #[tactic(auto, unfolding(crate::specs::Building::from_local))]
    pub fn local(&mut self, locals: &[Local], number: usize) -> Result<Flow, Memory>
        ensures { IfOk result (λ flow. at (building_of G.graph self.new) flow
            ≡ from_local G.keep (building_of G.graph self.old) (slice_get locals.now number)) }
    {
        match local_at(locals, number) {
            Some(local) => Ok(self.crossed(local.arms, local.flow)?),
            None => Ok(UNDEF),
        }
    }

    /// The index of the block.
    #[tactic(auto, unfolding(crate::specs::Building::index_built, crate::specs::Seen::building_of))]
    pub fn index(&mut self, turns: Turns) -> Result<Flow, Memory>
        ensures { IfOk result (λ flow. at (building_of G.graph self.new) flow
            ≡ index_built G.keep turns (building_of G.graph self.old)) }
    {
        if let Some(cell) = self.met.index {
            return Ok(self.crossed(0, Flow::Cell(cell))?);
        }
        let kind = Kind::Idx {
            lo: turns.lo,
            length: turns.n,
        };
        let cell = self.graph.cell(kind, &[])?;
        self.met.index = Some(cell);
        Ok(self.crossed(0, Flow::Cell(cell))?)
    }

    /// In the element of a recurrence, the element before its own.
    #[tactic(auto, unfolding(crate::specs::Building::previous_built, crate::specs::Seen::building_of))]
    pub fn previous(&mut self, turns: Turns) -> Result<Flow, Memory>
        ensures { IfOk result (λ flow. at (building_of G.graph self.new) flow
            ≡ previous_built G.keep turns (building_of G.graph self.old)) }
    {
        let Some(merge) = turns.own else {
            return Ok(UNDEF);
        };
        if let Some(cell) = self.met.previous {
            return Ok(self.crossed(0, Flow::Cell(cell))?);
        }
        let cell = values_before(self.alloc, &mut self.graph, merge, turns.n)?;
        self.met.previous = Some(cell);
        Ok(self.crossed(0, Flow::Cell(cell))?)
    }

    /// A scalar from outside: itself where the block has one turn, else its hold.
    #[tactic(auto, unfolding(crate::specs::Building::outer_built, crate::specs::Seen::building_of))]
    pub fn outer(&mut self, turns: Turns, outer: &[Outside], number: usize) -> Result<Flow, Memory>
        ensures { IfOk result (λ flow. at (building_of G.graph self.new) flow
            ≡ outer_built G.keep turns outer.now number (building_of G.graph self.old)) }
    {
        let flow = flow_at(outer, number);
        let cell = match flow {
            Flow::Constant(_) => return Ok(flow),
            Flow::Cell(cell) => cell,
        };
        if turns.n <= 1 {
            return Ok(self.crossed(0, flow)?);
        }
        if let Some(held) = self.met.holds.get(number as u64) {
            return Ok(self.crossed(0, Flow::Cell(held))?);
        }
        let held = hold(self.alloc, &mut self.graph, cell, turns.n)?;
        self.met.holds.note(number as u64, held)?;
        Ok(self.crossed(0, Flow::Cell(held))?)
    }

    /// The element of an array at the index and an offset together.
    #[tactic(auto, unfolding(crate::specs::Building::element_built, crate::specs::Seen::building_of))]
    pub fn element(
        &mut self,
        turns: Turns,
        outer: &[Outside],
        number: usize,
        offset: i128,
    ) -> Result<Flow, Memory>
        ensures { IfOk result (λ flow. at (building_of G.graph self.new) flow
            ≡ element_built G.keep turns outer.now number offset (building_of G.graph self.old)) }
    {
        if let Some(flow) = self.met.accesses.get(number, offset) {
            return Ok(self.crossed(0, flow)?);
        }
        let array = array_at(outer, number);
        let flow = window(
            self.alloc,
            &mut self.graph,
            array,
            turns.lo,
            turns.n,
            offset,
        )?;
        self.met.accesses.note(number, offset, flow)?;
        Ok(self.crossed(0, flow)?)
    }

    /// Closes arms, the last one first: each is the MERGE of its true side and of the value so far.
    pub fn unwind(&mut self, mut opened: Vec<Open>, innermost: Flow) -> Result<Flow, Memory>
        ensures { IfOk result (λ flow. at (building_of G.graph self.new) flow
            ≡ unwound G.keep opened.items (at (building_of G.graph self.old) innermost)) }
    {
        let mut value = innermost;
        while let Some(arm) = opened.pop() {
            self.leave();
            value = self.chosen(arm.control, arm.value, value)?;
        }
        Ok(value)
    }

    // The MERGE of the values of two arms.
    #[tactic(auto, unfolding(crate::specs::Building::chosen, crate::specs::Seen::building_of))]
    fn chosen(&mut self, control: u64, x: Flow, y: Flow) -> Result<Flow, Memory>
        ensures { IfOk result (λ flow. at (building_of G.graph self.new) flow
            ≡ chosen G.keep control (building_of G.graph self.old) x y) }
    {
        let cell = merge(&mut self.graph, control, x, y)?;
        Ok(Flow::Cell(cell))
    }
}
