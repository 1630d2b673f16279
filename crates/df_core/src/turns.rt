//! The members of terms.
ghost use Rattle.std.specs.Prelude.{◌≡◌, ◌≢◌, ◌≤◌, ◌<◌, IfOk, IfSome, length, take, fold, slice_index_or, ◌+ℤ◌, ◌-ℤ◌, true, Some, None};
ghost use Rattle.std.specs.Bool.{OnTrue, OnFalse};
ghost use Rattle.std.specs.Option.{unwrap_or};
ghost use Rattle.df_values.specs.declared.values.Value.TheVariants.{Truth, Error};
ghost use Rattle.df_values.specs.declared.values.ErrorValue.TheVariants.{Undef};
ghost use Rattle.df_partial.specs.Members.{Member, decided};
ghost use Rattle.df_core.specs.Turning.{scalar_in, member_at_place, member_in, made_in, term_member, assigned};
ghost use Rattle.df_core.specs.MemberParts.{joined_with, branches_with, bound_with, given_with};

use crate::made::Made;
use crate::terms::{Assignment, Branch, Offset, Step, Term};
use df_partial::members::{Member, change, pair};
use df_values::memory::Memory;
use df_values::values::{ErrorValue, Integer, Value};
use std::alloc::Global;
use std::marker::Model;

/// Where a term stands, and how many turns each loop in it may make.
#[derive(Drop)]
pub struct Turn<'a> {
    alloc: Global,
    made: &'a [Made],
    at: Integer,
    previous: Member,
    turns: u32,
}

impl<'a> Model for Turn<'a> {
    ghost use Rattle.df_core.specs.Turning.{Place};

    ghost Value = { Place };

    ghost view = { λ t. record { made = t.made.now; at = t.at; previous = t.previous; turns = t.turns } };
}

/// The member of a local.
#[inline(always)]
fn local(locals: &[Member], number: usize) -> Member
    ensures { result ≡ slice_index_or locals.now number (Some (Error Undef)) }
{
    match locals.get(number) {
        Some(member) => *member,
        None => Some(Value::Error(ErrorValue::Undef)),
    }
}

/// The member at a place, from 0.
fn at_place(members: &[Member], place: Offset) -> Member
    ensures { result ≡ member_at_place members.now place }
{
    if place < 0 || place >= members.len() as Offset {
        return Some(Value::Error(ErrorValue::MissElt));
    }
    members[place as usize]
}

/// The member of an array at an index and an offset together.
fn member(members: &[Member], lowest: Integer, at: Integer, offset: Offset) -> Member
    ensures { result ≡ member_at_place members.now ((at +ℤ offset) -ℤ lowest) }
{
    let distance = Offset::from(at) - Offset::from(lowest);
    match offset.checked_add(distance) {
        Some(place) => at_place(members, place),
        None => Some(Value::Error(ErrorValue::MissElt)),
    }
}

/// Whether a loop makes one turn more, with so many left.
fn goes_on(left: u32, tested: Member) -> bool
    ensures left { OnTrue result (0 < left) }
    ensures on { OnTrue result (tested ≡ Some (Truth true)) }
    ensures off { OnFalse result (left ≢ 0 → (more last : Member) → decided tested more last ≡ decided tested None last) }
{
    left > 0 && matches!(tested, Some(Value::Truth(true)))
}

/// What a test alone decides where there is no turn more, or None where it leaves that to the last term.
fn ended(tested: Member) -> Option<Member>
    ensures { (last : Member) → decided tested None last ≡ unwrap_or result last }
{
    match tested {
        Some(Value::Truth(false)) => None,
        Some(Value::Truth(true)) | None => Some(None),
        Some(_) => Some(Some(Value::Error(ErrorValue::Undef))),
    }
}

/// Sets the names of a loop, which stand behind the outer locals, in order.
fn put(moves: &[(usize, Member)], outer: usize, locals: &mut Vec<Member>)
    requires { outer ≤ length locals.old.items }
    ensures set { locals.new.items ≡ fold (assigned outer) locals.old.items moves.now }
    ensures outside { take outer locals.new.items ≡ take outer locals.old.items }
    ensures length { length locals.new.items ≡ length locals.old.items }
{
    for (name, member) in moves {
        if *name < locals.len() - outer {
            locals[outer + *name] = *member;
        }
    }
}

impl<'a> Turn<'a> {
    /// A turn, by what the parameters and the blocks so far are, its index, in the element of a recurrence the element before,
    /// and how many turns a loop may make.
    pub fn new(
        alloc: Global,
        made: &'a [Made],
        at: Integer,
        previous: Member,
        turns: u32,
    ) -> Turn<'a>
        ensures { result ≡ record { made = made.now; at = at; previous = previous; turns = turns } }
    {
        Turn {
            alloc,
            made,
            at,
            previous,
            turns,
        }
    }

    /// The member of a scalar from outside.
    fn outer(&self, number: usize) -> Member
        ensures { result ≡ scalar_in (made_in self.now.made number) }
    {
        match self.made.get(number) {
            Some(Made::Single(member)) => *member,
            _ => Some(Value::Error(ErrorValue::Undef)),
        }
    }

    /// The member of an array at the index and an offset together.
    fn element(&self, array: usize, offset: Offset) -> Member
        ensures { result ≡ member_in (made_in self.now.made array) (self.now.at +ℤ offset) }
    {
        match self.made.get(array) {
            Some(Made::Many { lowest, members }) => member(
                members.as_slice(),
                *lowest,
                self.at,
                offset,
            ),
            _ => Some(Value::Error(ErrorValue::MissElt)),
        }
    }

    /// The member of a term without terms in it, and None of any other.
    #[inline(always)]
    #[tactic(auto, using(crate::proofs::Given::forms))]
    fn leaf(&self, term: &Term, locals: &[Member]) -> Option<Member>
        ensures { IfSome result (λ m. m ≡ term_member term.now self.now locals.now) }
    {
        match term {
            Term::Constant { value } => Some(Some(*value)),
            Term::Local { number } => Some(local(locals, *number)),
            Term::Index => Some(Some(Value::Int(self.at))),
            Term::Outer { number } => Some(self.outer(*number)),
            Term::Element { array, offset } => Some(self.element(*array, *offset)),
            Term::Previous => Some(self.previous),
            _ => None,
        }
    }

    /// The member of a term.
    ///
    /// It stands in the places of its calls, so that a term without terms in it takes no call.
    #[cycle(value)]
    #[inline(always)]
    pub fn value(&self, term: &Term, locals: &mut Vec<Member>) -> Result<Member, Memory>
        ensures value { IfOk result (λ m. m ≡ term_member term.now self.now locals.old.items) }
        ensures kept { IfOk result (λ _. locals.new.items ≡ locals.old.items) }
    {
        match self.leaf(term, locals) {
            Some(member) => Ok(member),
            None => self.parted(term, locals),
        }
    }

    /// The same by the parts of the term.
    #[cycle(value)]
    #[inline(never)]
    #[tactic(auto, using(crate::proofs::Given::forms))]
    fn parted(&self, term: &Term, locals: &mut Vec<Member>) -> Result<Member, Memory>
        ensures value { IfOk result (λ m. m ≡ term_member term.now self.now locals.old.items) }
        ensures kept { IfOk result (λ _. locals.new.items ≡ locals.old.items) }
    {
        match term {
            Term::Constant { value } => Ok(Some(*value)),
            Term::Local { number } => Ok(local(locals, *number)),
            Term::Index => Ok(Some(Value::Int(self.at))),
            Term::Outer { number } => Ok(self.outer(*number)),
            Term::Element { array, offset } => Ok(self.element(*array, *offset)),
            Term::Previous => Ok(self.previous),
            Term::Chain { first, rest } => {
                let first = self.value(first.get(), locals)?;
                Ok(self.chain(first, rest.as_slice(), locals)?)
            }
            Term::Change { how, of } => {
                let of = self.value(of.get(), locals)?;
                Ok(change(*how, of))
            }
            Term::If { branches, last } => match self.chosen(branches.as_slice(), locals)? {
                Some(member) => Ok(member),
                None => Ok(self.value(last.get(), locals)?),
            },
            Term::Let { definitions, value } => {
                let outer = locals.len();
                self.define(definitions.as_slice(), locals)?;
                let member = self.value(value.get(), locals)?;
                locals.truncate(outer);
                Ok(member)
            }
            Term::Loop {
                first,
                more,
                test,
                next,
                last,
            } => {
                let depth = locals.len();
                let member = self.value(first.get(), locals)?;
                locals.push(member)?;
                self.define(more.get().as_slice(), locals)?;
                let mut moves = Vec::new(self.alloc);
                let mut left = self.turns;
                let mut tested = self.value(test.get(), locals)?;
                while goes_on(left, tested) {
                    self.assign(next.get().as_slice(), locals, &mut moves)?;
                    put(moves.as_slice(), depth, locals);
                    left -= 1;
                    tested = self.value(test.get(), locals)?;
                }
                let member = match ended(tested) {
                    Some(member) => member,
                    None => self.value(last.get(), locals)?,
                };
                locals.truncate(depth);
                Ok(member)
            }
        }
    }

    /// A chain from its first member on.
    #[cycle(value)]
    fn chain(
        &self,
        first: Member,
        rest: &[Step],
        locals: &mut Vec<Member>,
    ) -> Result<Member, Memory>
        ensures value { IfOk result (λ m. m ≡ joined_with self.now locals.old.items first rest.now) }
        ensures kept { IfOk result (λ _. locals.new.items ≡ locals.old.items) }
    {
        let mut joined = first;
        for step in rest {
            let operand = self.value(&step.operand, locals)?;
            joined = pair(step.with, joined, operand);
        }
        Ok(joined)
    }

    /// The member that the branches choose, or None where no branch does.
    #[cycle(value)]
    fn chosen(
        &self,
        branches: &[Branch],
        locals: &mut Vec<Member>,
    ) -> Result<Option<Member>, Memory>
        ensures value { IfOk result (λ r. (last : Member)
            → branches_with self.now locals.old.items last branches.now ≡ unwrap_or r last) }
        ensures kept { IfOk result (λ _. locals.new.items ≡ locals.old.items) }
    {
        for branch in branches {
            match self.value(&branch.test, locals)? {
                Some(Value::Truth(true)) => return Ok(Some(self.value(&branch.value, locals)?)),
                Some(Value::Truth(false)) => {}
                Some(_) => return Ok(Some(Some(Value::Error(ErrorValue::Undef)))),
                None => return Ok(Some(None)),
            }
        }
        Ok(None)
    }

    /// Adds the member of each definition in order.
    #[cycle(value)]
    fn define(&self, definitions: &[Term], locals: &mut Vec<Member>) -> Result<(), Memory>
        ensures bound { IfOk result (λ _. locals.new.items ≡ bound_with self.now locals.old.items definitions.now) }
        ensures kept { IfOk result (λ _. take (length locals.old.items) locals.new.items ≡ locals.old.items) }
    {
        for definition in definitions {
            let member = self.value(definition, locals)?;
            locals.push(member)?;
        }
        Ok(())
    }

    /// What the assignments of a turn give, all under the same locals, in place of what was there.
    #[cycle(value)]
    fn assign(
        &self,
        next: &[Assignment],
        locals: &mut Vec<Member>,
        moves: &mut Vec<(usize, Member)>,
    ) -> Result<(), Memory>
        ensures given { IfOk result (λ _. moves.new.items ≡ given_with self.now next.now locals.old.items) }
        ensures kept { IfOk result (λ _. locals.new.items ≡ locals.old.items) }
    {
        moves.clear();
        for assignment in next {
            let member = self.value(&assignment.value, locals)?;
            moves.push((assignment.name, member))?;
        }
        Ok(())
    }
}
