//! The cells of a term.
ghost use Rattle.std.specs.Prelude.{◌≡◌, [], length, take, IfOk};
ghost use Rattle.df_core.specs.declared.terms.Term.{Term};
ghost use Rattle.df_build_terms.specs.Building.{at};
ghost use Rattle.df_build_terms.specs.Built.{built};
ghost use Rattle.df_build_terms.specs.Parts.{chained_by, choose_by, defined_by, unwound, ended};
ghost use Rattle.df_build_terms.specs.Seen.{building_of};

use crate::building::{Local, Outside, Turns};
use crate::elem::{Elem, Open};
use df_core::terms::{Branch, Step, Term};
use df_labels::graphs::{Flow, Graphs};
use df_values::memory::Memory;
use df_values::values::{ErrorValue, Value};

const UNDEF: Flow = Flow::Constant(Value::Error(ErrorValue::Undef));

impl<G: Graphs> Elem<G> {
    /// Builds a term where it stands: in a block of these turns, with what parameters and earlier blocks are in the
    /// graph, and under the locals bound so far. The only refusal is want of memory.
    #[cycle(term)]
    #[tactic(auto, using(crate::proofs::Forms::forms))]
    pub fn term(
        &mut self,
        term: &Term,
        turns: Turns,
        outer: &[Outside],
        locals: &mut Vec<Local>,
    ) -> Result<Flow, Memory>
        ensures built { IfOk result (λ flow. at (building_of G.graph self.new) flow
            ≡ built G.keep turns outer.now term.now locals.old.items (building_of G.graph self.old)) }
        ensures kept { IfOk result (λ _. locals.new.items ≡ locals.old.items) }
    {
        match term {
            Term::Constant { value } => Ok(Flow::Constant(*value)),
            Term::Local { number } => Ok(self.local(locals.as_slice(), *number)?),
            Term::Index => Ok(self.index(turns)?),
            Term::Outer { number } => Ok(self.outer(turns, outer, *number)?),
            Term::Element { array, offset } => Ok(self.element(turns, outer, *array, *offset)?),
            Term::Previous => Ok(self.previous(turns)?),
            Term::Chain { first, rest } => {
                let first = self.term(first.get(), turns, outer, locals)?;
                Ok(self.chain(first, rest.as_slice(), turns, outer, locals)?)
            }
            Term::Change { how, of } => {
                let of = self.term(of.get(), turns, outer, locals)?;
                Ok(self.changed(*how, of)?)
            }
            Term::If { branches, last } => {
                let mut opened = Vec::new(self.allocator());
                match self.forward(branches.as_slice(), turns, outer, locals, &mut opened)? {
                    Some(flow) => Ok(self.unwind(opened, flow)?),
                    None => {
                        let flow = self.term(last.get(), turns, outer, locals)?;
                        Ok(self.unwind(opened, flow)?)
                    }
                }
            }
            Term::Let { definitions, value } => {
                let before = locals.len();
                self.define(definitions.as_slice(), turns, outer, locals)?;
                let value = self.term(value.get(), turns, outer, locals)?;
                locals.truncate(before);
                Ok(value)
            }
            // A program that keeps the bounds has no loops.
            Term::Loop { .. } => Ok(UNDEF),
        }
    }

    // A chain from its first value on.
    #[cycle(term)]
    fn chain(
        &mut self,
        first: Flow,
        rest: &[Step],
        turns: Turns,
        outer: &[Outside],
        locals: &mut Vec<Local>,
    ) -> Result<Flow, Memory>
        ensures built { IfOk result (λ flow. at (building_of G.graph self.new) flow
            ≡ chained_by G.keep (built G.keep turns outer.now) locals.old.items
            (at (building_of G.graph self.old) first) rest.now) }
        ensures kept { IfOk result (λ _. locals.new.items ≡ locals.old.items) }
    {
        let mut done = first;
        for step in rest {
            let operand = self.term(&step.operand, turns, outer, locals)?;
            done = self.joined(step.with, done, operand)?;
        }
        Ok(done)
    }

    // Definitions in order, each a local more.
    #[cycle(term)]
    fn define(
        &mut self,
        definitions: &[Term],
        turns: Turns,
        outer: &[Outside],
        locals: &mut Vec<Local>,
    ) -> Result<(), Memory>
        ensures built { IfOk result (λ _. record { locals = locals.new.items; state = building_of G.graph self.new }
            ≡ defined_by (built G.keep turns outer.now)
            (record { locals = locals.old.items; state = building_of G.graph self.old }) definitions.now) }
        ensures kept { IfOk result (λ _. take (length locals.old.items) locals.new.items ≡ locals.old.items) }
    {
        for definition in definitions {
            let flow = self.term(definition, turns, outer, locals)?;
            locals.push(Local {
                flow,
                arms: self.depth(),
            })?;
        }
        Ok(())
    }

    // Goes forward over branches, and leaves open the arms of which the sides are to be merged. Gives the value where a
    // branch decides: so `elseif` takes no recursion.
    #[cycle(term)]
    fn forward(
        &mut self,
        branches: &[Branch],
        turns: Turns,
        outer: &[Outside],
        locals: &mut Vec<Local>,
        opened: &mut Vec<Open>,
    ) -> Result<Option<Flow>, Memory>
        requires { opened.old.items ≡ [] }
        ensures built { IfOk result (λ r. (last : Term)
            → unwound G.keep opened.new.items (ended (building_of G.graph self.new) r
            (built G.keep turns outer.now last locals.old.items (building_of G.graph self.new)))
            ≡ choose_by G.keep (built G.keep turns outer.now) branches.now last locals.old.items
            (building_of G.graph self.old)) }
        ensures kept { IfOk result (λ _. locals.new.items ≡ locals.old.items) }
    {
        for branch in branches {
            match self.term(&branch.test, turns, outer, locals)? {
                Flow::Constant(Value::Truth(true)) => {
                    return Ok(Some(self.term(&branch.value, turns, outer, locals)?));
                }
                Flow::Constant(Value::Truth(false)) => {}
                Flow::Constant(Value::Int(_)) => return Ok(Some(UNDEF)),
                Flow::Constant(Value::Error(_)) => return Ok(Some(UNDEF)),
                Flow::Cell(control) => {
                    self.enter(control, true)?;
                    let value = self.term(&branch.value, turns, outer, locals)?;
                    self.leave();
                    self.enter(control, false)?;
                    opened.push(Open { control, value })?;
                }
            }
        }
        Ok(None)
    }
}
