//! Expressions as terms.
ghost use Rattle.std.specs.Prelude.{◌≡◌, ◌≤◌, IfOk, map, reverse, take, length, Option, [], fold};
ghost use Rattle.df_flattened.specs.Flattened.{flatten, bodies, named, accessed, subscript, undef, arguments_of, define, let_of, pair, called};
ghost use Rattle.df_syntax.specs.WellShaped.{look_of};
ghost use Rattle.df_core.specs.declared.terms.Term.TheVariants as term;
ghost use Rattle.df_inline.specs.Bindings.{scope_of};
ghost use Rattle.df_inline.specs.Lowered.{Gives, step_of, branch_of, besides, listed, behind, only_of};

use crate::depth::Depth;
use crate::names::{Binding, Names};
use crate::subscripts::{manifest, offset, ordinary};
use crate::table::Table;
use df_core::terms::{Branch, Offset, Step, Term};
use df_flattened::standing::Standing;
use df_syntax::program::Function;
use df_syntax::tree::{Arm, Definition, Expr, Link, Node};
use df_values::kinds::{Binary, Unary};
use df_values::memory::Memory;
use df_values::name::Name;
use df_values::values::{ErrorValue, Value};
use sqlite_items::{Boxed, Items};
use std::alloc::Global;

/// What stands for nothing.
fn nothing() -> Term
    ensures { result ≡ undef }
{
    Term::Constant {
        value: Value::Error(ErrorValue::Undef),
    }
}

/// The term of a name.
fn named(standing: Option<Standing>) -> Term
    ensures { result ≡ named standing }
{
    match standing {
        Some(Standing::Local(number)) => Term::Local { number },
        Some(Standing::Index) => Term::Index,
        Some(Standing::Outer(number)) => Term::Outer { number },
        _ => nothing(),
    }
}

/// The term of an element of an array.
fn accessed(standing: Option<Standing>, at: Option<Offset>) -> Term
    ensures { result ≡ accessed standing at }
{
    match (standing, at) {
        (Some(Standing::Elements(array)), Some(offset)) => Term::Element { array, offset },
        (Some(Standing::Own), _) => Term::Previous,
        _ => nothing(),
    }
}

/// What makes terms of expressions, with bodies in place of calls.
#[derive(Clone, Copy)]
pub(crate) struct Copier<'a, F> {
    /// Where memory comes from.
    pub alloc: Global,
    /// What is known of the functions.
    pub table: &'a Table,
    /// The functions that may be called.
    pub functions: &'a [Function],
    /// The index of the block.
    pub index: Option<Name>,
    /// The body that stands in place of a call of one of so many functions, at a depth.
    pub body: F,
}

impl<F> Copier<'_, F> {
    /// The offset at which an array is taken.
    fn subscript(&self, at: &Expr) -> Result<Option<Offset>, Memory>
        ensures { IfOk result (λ c. c ≡ subscript self.now.index (look_of at.now)) }
    {
        match self.index {
            None => Ok(ordinary(manifest(at))),
            Some(index) => Ok(offset(at, &index)?),
        }
    }

    /// Two terms, joined.
    fn pair(&self, first: Term, with: Binary, operand: Term) -> Result<Term, Memory>
        ensures { IfOk result (λ t. t ≡ pair first with operand) }
    {
        let first = Boxed::new(self.alloc, first)?;
        let mut rest = Items::new(self.alloc);
        rest.push(Step { with, operand })?;
        Ok(Term::Chain { first, rest })
    }

    /// A term, changed.
    fn change(&self, how: Unary, of: Term) -> Result<Term, Memory>
        ensures { IfOk result (λ t. t ≡ term.Change how of) }
    {
        let of = Boxed::new(self.alloc, of)?;
        Ok(Term::Change { how, of })
    }

    /// A value or a body behind definitions.
    fn behind(&self, definitions: Items<Term>, value: Option<Term>) -> Result<Term, Memory>
        ensures { IfOk result (λ t. t ≡ behind definitions value) }
    {
        match value {
            None => Ok(nothing()),
            Some(value) => {
                let value = Boxed::new(self.alloc, value)?;
                Ok(Term::Let { definitions, value })
            }
        }
    }
}

impl<F: Fn(Global, &Table, &[Function], &Name, usize) -> Result<Option<Term>, Memory>> Copier<
    '_,
    F,
> {
    /// An expression, under names and behind so many locals.
    #[cycle(copy)]
    #[tactic(auto, using(crate::proofs::Forms::forms))]
    pub fn term(&self, expr: &Expr, names: &mut Names, depth: &mut Depth) -> Result<Term, Memory>
        requires { Gives self.now.functions.now self.now.table.now (F.pre self.now.body) (F.post self.now.body) }
        ensures value { IfOk result (λ t. t ≡ flatten (bodies (reverse self.now.functions.now)) expr.now (scope_of names.old depth.old self.now.index)) }
        ensures kept { IfOk result (λ _. names.new ≡ names.old) }
        ensures same_depth { IfOk result (λ _. depth.new ≡ depth.old) }
    {
        match expr.node.get() {
            Node::Number { value } => Ok(Term::Constant {
                value: Value::Int(*value),
            }),
            Node::Truth { value } => Ok(Term::Constant {
                value: Value::Truth(*value),
            }),
            Node::Error { value, .. } => Ok(Term::Constant {
                value: Value::Error(*value),
            }),
            Node::Name { name } => Ok(named(names.get(name))),
            Node::Access { name, at } => {
                let at = self.subscript(at)?;
                Ok(accessed(names.get(name), at))
            }
            Node::Call { name, arguments } => {
                Ok(self.called(name, arguments.as_slice(), names, depth)?)
            }
            Node::Chain { first, rest } => {
                let first = self.term(first, names, depth)?;
                let rest = self.steps(rest.as_slice(), names, depth)?;
                let first = Boxed::new(self.alloc, first)?;
                Ok(Term::Chain { first, rest })
            }
            Node::Compare { rel, left, right } => {
                let left = self.term(left, names, depth)?;
                let right = self.term(right, names, depth)?;
                Ok(self.pair(left, Binary::Comparison(*rel), right)?)
            }
            Node::TwoPlace { op, left, right } => {
                let left = self.term(left, names, depth)?;
                let right = self.term(right, names, depth)?;
                Ok(self.pair(left, Binary::Operation(*op), right)?)
            }
            Node::Negate { of } => {
                let of = self.term(of, names, depth)?;
                Ok(self.change(Unary::Negation, of)?)
            }
            Node::Invert { of } => {
                let of = self.term(of, names, depth)?;
                Ok(self.change(Unary::Inversion, of)?)
            }
            Node::Test { test, of } => {
                let of = self.term(of, names, depth)?;
                Ok(self.change(Unary::Inquiry(*test), of)?)
            }
            Node::Parens { of } => Ok(self.term(of, names, depth)?),
            Node::If { arms, last } => {
                let branches = self.branches(arms.as_slice(), names, depth)?;
                let last = self.term(last, names, depth)?;
                let last = Boxed::new(self.alloc, last)?;
                Ok(Term::If { branches, last })
            }
            Node::Let {
                definitions,
                values,
            } => {
                let outer = names.len();
                let before = depth.count();
                let definitions = self.define(definitions.as_slice(), names, depth)?;
                let value = self.only(values.as_slice(), names, depth)?;
                depth.back_to(before);
                names.truncate(outer)?;
                Ok(self.behind(definitions, value)?)
            }
            Node::Construct { .. } => Ok(nothing()),
            Node::Fold { .. } => Ok(nothing()),
            Node::For { .. } => Ok(nothing()),
            Node::Array { .. } => Ok(nothing()),
            Node::Update { .. } => Ok(nothing()),
        }
    }

    /// The links of a chain in order.
    #[cycle(copy)]
    fn steps(
        &self,
        links: &[Link],
        names: &mut Names,
        depth: &mut Depth,
    ) -> Result<Items<Step>, Memory>
        requires { Gives self.now.functions.now self.now.table.now (F.pre self.now.body) (F.post self.now.body) }
        ensures value { IfOk result (λ l. l ≡ map (step_of (bodies (reverse self.now.functions.now)) (scope_of names.old depth.old self.now.index)) links.now) }
        ensures kept { IfOk result (λ _. names.new ≡ names.old) }
        ensures same_depth { IfOk result (λ _. depth.new ≡ depth.old) }
    {
        let mut steps = Items::new(self.alloc);
        for link in links {
            let operand = self.term(&link.operand, names, depth)?;
            steps.push(Step {
                with: Binary::Operation(link.op),
                operand,
            })?;
        }
        Ok(steps)
    }

    /// Arms in order.
    #[cycle(copy)]
    fn branches(
        &self,
        arms: &[Arm],
        names: &mut Names,
        depth: &mut Depth,
    ) -> Result<Items<Branch>, Memory>
        requires { Gives self.now.functions.now self.now.table.now (F.pre self.now.body) (F.post self.now.body) }
        ensures value { IfOk result (λ l. l ≡ map (branch_of (bodies (reverse self.now.functions.now)) (scope_of names.old depth.old self.now.index)) arms.now) }
        ensures kept { IfOk result (λ _. names.new ≡ names.old) }
        ensures same_depth { IfOk result (λ _. depth.new ≡ depth.old) }
    {
        let mut branches = Items::new(self.alloc);
        for arm in arms {
            let test = self.term(&arm.test, names, depth)?;
            let value = self.term(&arm.value, names, depth)?;
            branches.push(Branch { test, value })?;
        }
        Ok(branches)
    }

    /// Arguments in order, each behind those before it, and in the caller's names.
    #[cycle(copy)]
    fn arguments(
        &self,
        arguments: &[Expr],
        names: &mut Names,
        depth: &mut Depth,
    ) -> Result<Items<Term>, Memory>
        requires { Gives self.now.functions.now self.now.table.now (F.pre self.now.body) (F.post self.now.body) }
        ensures value { IfOk result (λ l. l ≡ arguments_of (scope_of names.old depth.old self.now.index) (besides (bodies (reverse self.now.functions.now)) arguments.now)) }
        ensures kept { IfOk result (λ _. names.new ≡ names.old) }
        ensures same_depth { IfOk result (λ _. depth.new ≡ depth.old) }
    {
        let mut terms = Items::new(self.alloc);
        let before = depth.count();
        for argument in arguments {
            terms.push(self.term(argument, names, depth)?)?;
            depth.deepen()?;
        }
        depth.back_to(before);
        Ok(terms)
    }

    /// A call.
    #[cycle(copy)]
    fn called(
        &self,
        name: &Name,
        arguments: &[Expr],
        names: &mut Names,
        depth: &mut Depth,
    ) -> Result<Term, Memory>
        requires { Gives self.now.functions.now self.now.table.now (F.pre self.now.body) (F.post self.now.body) }
        ensures value { IfOk result (λ t. t ≡ called (scope_of names.old depth.old self.now.index) (besides (bodies (reverse self.now.functions.now)) arguments.now) (bodies (reverse self.now.functions.now) name.now)) }
        ensures kept { IfOk result (λ _. names.new ≡ names.old) }
        ensures same_depth { IfOk result (λ _. depth.new ≡ depth.old) }
    {
        let definitions = self.arguments(arguments, names, depth)?;
        match (self.body)(self.alloc, self.table, self.functions, name, depth.count())? {
            None => Ok(nothing()),
            Some(body) => {
                let value = Boxed::new(self.alloc, body)?;
                Ok(Term::Let { definitions, value })
            }
        }
    }

    /// Binds each definition in order, and gives their terms.
    #[cycle(copy)]
    fn define(
        &self,
        definitions: &[Definition],
        names: &mut Names,
        depth: &mut Depth,
    ) -> Result<Items<Term>, Memory>
        requires { Gives self.now.functions.now self.now.table.now (F.pre self.now.body) (F.post self.now.body) }
        ensures bound { IfOk result (λ terms. (terms, scope_of names.new depth.new self.now.index)
            ≡ fold define ([], scope_of names.old depth.old self.now.index) (listed (bodies (reverse self.now.functions.now)) definitions.now)) }
        ensures kept { IfOk result (λ _. take (length names.old) names.new ≡ names.old) }
        ensures deeper { IfOk result (λ _. depth.old ≤ depth.new) }
    {
        let mut terms = Items::new(self.alloc);
        for definition in definitions {
            terms.push(self.term(&definition.value, names, depth)?)?;
            names.push(Binding {
                name: definition.name.name,
                standing: Standing::Local(depth.count()),
            })?;
            depth.deepen()?;
        }
        Ok(terms)
    }

    /// An only value.
    #[cycle(copy)]
    pub fn only(
        &self,
        values: &[Expr],
        names: &mut Names,
        depth: &mut Depth,
    ) -> Result<Option<Term>, Memory>
        requires { Gives self.now.functions.now self.now.table.now (F.pre self.now.body) (F.post self.now.body) }
        ensures value { IfOk result (λ o. o ≡ only_of (scope_of names.old depth.old self.now.index) (besides (bodies (reverse self.now.functions.now)) values.now)) }
        ensures kept { IfOk result (λ _. names.new ≡ names.old) }
        ensures same_depth { IfOk result (λ _. depth.new ≡ depth.old) }
    {
        match values {
            [value] => Ok(Some(self.term(value, names, depth)?)),
            _ => Ok(None),
        }
    }
}
