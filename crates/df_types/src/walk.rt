//! Expressions: each part is checked wholly, and then its type is compared with what is asked.
ghost use Rattle.std.specs.Prelude.{◌≡◌, length, map};
ghost use Rattle.std.specs.Option.{option_copied};
ghost use Rattle.df_syntax.specs.declared.tree.Link.{Link as OneLink};
ghost use Rattle.df_syntax.specs.declared.tree.Arm.{Arm as OneArm};
ghost use Rattle.df_syntax.specs.declared.tree.Parameter.{Parameter as OneParameter};
ghost use Rattle.df_types.specs.Answers.{Answers, Looked};
ghost use Rattle.df_names.specs.Found.{names_of};
ghost use Rattle.df_types.specs.Scopes.{bound};
ghost use Rattle.df_types.specs.Sorts.{chain_sort};
ghost use Rattle.df_types.specs.Types.{look_of, block_of, forall_of, other_of, asked, asked_operand, operand_sort, asked_each, asked_links, asked_arms, function_at, call_demands, call_sort, definition_demands, assign_demands, locals, typed, given};

use crate::answers::CheckAnswer;
use crate::entry::{Entry, Scope};
use crate::names::{array_named, ask_fresh, bind_fresh, forget, loop_names, value_named};
use crate::sorts::{
    array_of, element_of, is_basic, is_equality, is_of_any, is_same, operator_sort,
};
use df_io::Place;
use df_syntax::program::Function;
use df_syntax::tree::{Arm, Assign, Definition, Expr, Link, Node, Parameter, Sort};
use df_values::name::Name;
use df_values::values::Basic::{Boolean, Integer};
use std::alloc::Global;

/// What an expression is checked among: the functions that can be called.
#[derive(Clone, Copy)]
pub(crate) struct Walk<'a> {
    pub alloc: Global,
    pub functions: &'a [Function],
}

impl Walk<'_> {
    /// The type of an expression.
    #[cycle(walk)]
    pub fn look(&self, expr: &Expr, scope: &mut Scope) -> Result<Sort, CheckAnswer>
        ensures { Looked (look_of self.now.functions.now expr.now) (names_of scope.old) result scope.new }
    {
        match expr.node.get() {
            Node::Number { .. } => Ok(Sort::Basic(Integer)),
            Node::Truth { .. } => Ok(Sort::Basic(Boolean)),
            Node::Error { basic, .. } => Ok(Sort::Basic(*basic)),
            Node::Name { name } => value_named(scope, name, expr.place),
            Node::Access { name, at } => {
                let sort = array_named(scope, name, expr.place)?;
                self.ask(at, Sort::Basic(Integer), scope)?;
                Ok(element_of(sort))
            }
            Node::Call { name, arguments } => {
                self.call(arguments.as_slice(), name, expr.place, scope)
            }
            Node::Chain { first, rest } => {
                let sort = self.ask(first, self.chain(rest.as_slice()), scope)?;
                self.links(rest.as_slice(), sort, scope)
            }
            Node::Compare { rel, left, right } => {
                let sort = self.ask_operand(left, is_equality(*rel), scope)?;
                self.ask(right, sort, scope)?;
                Ok(Sort::Basic(Boolean))
            }
            Node::Negate { of } => self.ask(of, Sort::Basic(Integer), scope),
            Node::Invert { of } => self.ask(of, Sort::Basic(Boolean), scope),
            Node::Parens { of } => self.look(of, scope),
            Node::Test { test, of } => {
                self.ask_operand(of, is_of_any(*test), scope)?;
                Ok(Sort::Basic(Boolean))
            }
            Node::TwoPlace { left, right, .. } => {
                self.ask(left, Sort::Basic(Integer), scope)?;
                self.ask(right, Sort::Basic(Integer), scope)
            }
            _ => self.block(expr, scope),
        }
    }

    /// The type of an expression that is a conditional or a `let`, or no operator, name, access, call
    /// or literal.
    #[cycle(walk)]
    fn block(&self, expr: &Expr, scope: &mut Scope) -> Result<Sort, CheckAnswer>
        ensures { Looked (block_of self.now.functions.now expr.now) (names_of scope.old) result scope.new }
    {
        match expr.node.get() {
            Node::If { arms, last } => match arms.as_slice() {
                [first, rest @ ..] => {
                    self.ask(&first.test, Sort::Basic(Boolean), scope)?;
                    let sort = self.look(&first.value, scope)?;
                    self.arms(rest, sort, scope)?;
                    self.ask(last, sort, scope)
                }
                _ => self.look(last, scope),
            },
            Node::Let {
                definitions,
                values,
            } => {
                if values.len() != 1 {
                    return Err(CheckAnswer::WrongArity(expr.place));
                }
                self.define(definitions.as_slice(), scope)?;
                let sort = self.look(&values.as_slice()[0], scope)?;
                forget(scope, definitions.as_slice());
                Ok(sort)
            }
            _ => self.forall(expr, scope),
        }
    }

    /// The type of an expression that is a `forall` or has none of the forms before.
    #[cycle(walk)]
    fn forall(&self, expr: &Expr, scope: &mut Scope) -> Result<Sort, CheckAnswer>
        ensures { Looked (forall_of self.now.functions.now expr.now) (names_of scope.old) result scope.new }
    {
        match expr.node.get() {
            Node::Construct {
                index,
                low,
                high,
                elem,
            } => {
                ask_fresh(scope, index)?;
                self.ask(low, Sort::Basic(Integer), scope)?;
                self.ask(high, Sort::Basic(Integer), scope)?;
                scope.bind(index.name, Entry::Local(Sort::Basic(Integer)))?;
                let sort = self.ask_operand(elem, true, scope)?;
                scope.unbind(&index.name);
                Ok(array_of(sort))
            }
            Node::Fold {
                index,
                low,
                high,
                op,
                elem,
            } => {
                ask_fresh(scope, index)?;
                self.ask(low, Sort::Basic(Integer), scope)?;
                self.ask(high, Sort::Basic(Integer), scope)?;
                scope.bind(index.name, Entry::Local(Sort::Basic(Integer)))?;
                let sort = self.ask(elem, operator_sort(*op), scope)?;
                scope.unbind(&index.name);
                Ok(sort)
            }
            _ => self.other(expr, scope),
        }
    }

    /// The type of a loop or an array, or of an expression that has none of the forms before.
    #[cycle(walk)]
    fn other(&self, expr: &Expr, scope: &mut Scope) -> Result<Sort, CheckAnswer>
        ensures { Looked (other_of self.now.functions.now expr.now) (names_of scope.old) result scope.new }
    {
        match expr.node.get() {
            Node::For {
                definitions,
                test,
                assigns,
                last,
            } => {
                let names = loop_names(self.alloc, definitions.as_slice())?;
                self.define(definitions.as_slice(), scope)?;
                self.ask(test, Sort::Basic(Boolean), scope)?;
                self.assigns(assigns.as_slice(), &names, scope)?;
                let sort = self.look(last, scope)?;
                forget(scope, definitions.as_slice());
                Ok(sort)
            }
            Node::Array { at, value } => {
                self.ask(at, Sort::Basic(Integer), scope)?;
                let sort = self.ask_operand(value, true, scope)?;
                Ok(array_of(sort))
            }
            Node::Update { name, at, value } => {
                let sort = array_named(scope, name, expr.place)?;
                self.ask(at, Sort::Basic(Integer), scope)?;
                self.ask(value, element_of(sort), scope)?;
                Ok(sort)
            }
            _ => Err(CheckAnswer::WrongType(expr.place)),
        }
    }

    /// An expression that is to be of a type, which is the answer.
    #[cycle(walk)]
    pub fn ask(&self, expr: &Expr, sort: Sort, scope: &mut Scope) -> Result<Sort, CheckAnswer>
        ensures { Answers sort (asked (look_of self.now.functions.now expr.now) sort (names_of scope.old)) (names_of scope.old) result scope.new }
    {
        let found = self.look(expr, scope)?;
        if !is_same(found, sort) {
            return Err(CheckAnswer::WrongType(expr.place));
        }
        Ok(sort)
    }

    /// An expression that may be of any basic type, or else is to be an integer. The answer is the
    /// type.
    #[cycle(walk)]
    fn ask_operand(&self, expr: &Expr, any: bool, scope: &mut Scope) -> Result<Sort, CheckAnswer>
        ensures { Answers (operand_sort any (look_of self.now.functions.now expr.now) (names_of scope.old)) (asked_operand any (look_of self.now.functions.now expr.now) (names_of scope.old)) (names_of scope.old) result scope.new }
    {
        if !any {
            return self.ask(expr, Sort::Basic(Integer), scope);
        }
        let sort = self.look(expr, scope)?;
        if !is_basic(sort) {
            return Err(CheckAnswer::WrongType(expr.place));
        }
        Ok(sort)
    }

    /// What the operators of a chain ask of its operands.
    fn chain(&self, rest: &[Link]) -> Sort
        ensures { result ≡ chain_sort (map (λ (l : OneLink). (l.op, look_of self.now.functions.now l.operand)) rest.now) }
    {
        match rest {
            [link, ..] => operator_sort(link.op),
            _ => Sort::Basic(Integer),
        }
    }

    /// The operands of a chain behind its first one, which are to be of a type.
    #[cycle(walk)]
    fn links(&self, rest: &[Link], sort: Sort, scope: &mut Scope) -> Result<Sort, CheckAnswer>
        ensures { Answers sort (asked_links sort (map (λ (l : OneLink). (l.op, look_of self.now.functions.now l.operand)) rest.now) (names_of scope.old)) (names_of scope.old) result scope.new }
    {
        for link in rest {
            self.ask(&link.operand, sort, scope)?;
        }
        Ok(sort)
    }

    /// Arms whose values are to be of a type.
    #[cycle(walk)]
    fn arms(&self, arms: &[Arm], sort: Sort, scope: &mut Scope) -> Result<(), CheckAnswer>
        ensures { Answers (tt {0}) (asked_arms sort (map (λ (a : OneArm). (look_of self.now.functions.now a.test, look_of self.now.functions.now a.value)) arms.now) (names_of scope.old)) (names_of scope.old) result scope.new }
    {
        for arm in arms {
            self.ask(&arm.test, Sort::Basic(Boolean), scope)?;
            self.ask(&arm.value, sort, scope)?;
        }
        Ok(())
    }

    /// The function that a name stands for.
    fn function(&self, name: &Name, scope: &Scope) -> Option<&Function>
        ensures { option_copied result ≡ function_at self.now.functions.now (names_of scope.now name.now) }
    {
        match scope.get(name) {
            Some(Entry::Function(index)) => self.functions.get(index),
            _ => None,
        }
    }

    /// The type of a call.
    #[cycle(walk)]
    fn call(
        &self,
        arguments: &[Expr],
        name: &Name,
        place: Place,
        scope: &mut Scope,
    ) -> Result<Sort, CheckAnswer>
        ensures { let callee = function_at self.now.functions.now (names_of scope.old name.now) in Answers (call_sort callee) (call_demands callee name.now place (map (look_of self.now.functions.now) arguments.now) (names_of scope.old)) (names_of scope.old) result scope.new }
    {
        match self.function(name, scope) {
            Some(function) => {
                if arguments.len() != function.parameters.len() || function.results.len() != 1 {
                    return Err(CheckAnswer::WrongArity(place));
                }
                self.arguments(arguments, function.parameters.as_slice(), scope)?;
                Ok(function.results.as_slice()[0])
            }
            None => Err(CheckAnswer::UnknownName(*name, place)),
        }
    }

    /// Arguments, which are to be of the types of as many parameters.
    #[cycle(walk)]
    fn arguments(
        &self,
        arguments: &[Expr],
        parameters: &[Parameter],
        scope: &mut Scope,
    ) -> Result<(), CheckAnswer>
        requires { length arguments.now ≡ length parameters.now }
        ensures { Answers (tt {0}) (asked_each (map (look_of self.now.functions.now) arguments.now) (map (λ (p : OneParameter). p.sort) parameters.now) (names_of scope.old)) (names_of scope.old) result scope.new }
    {
        for (i, argument) in arguments.iter().enumerate() {
            self.ask(argument, parameters[i].sort, scope)?;
        }
        Ok(())
    }

    /// Binds the names of definitions, each behind its value.
    #[cycle(walk)]
    pub fn define(&self, definitions: &[Definition], scope: &mut Scope) -> Result<(), CheckAnswer>
        ensures { Answers (tt {0}) (definition_demands (typed (look_of self.now.functions.now) definitions.now) (names_of scope.old)) (bound (locals definitions.now) (names_of scope.old)) result scope.new }
    {
        for definition in definitions {
            ask_fresh(scope, &definition.name)?;
            self.ask(&definition.value, definition.sort, scope)?;
            scope.bind(definition.name.name, Entry::Local(definition.sort))?;
        }
        Ok(())
    }

    /// The next values of a loop's names.
    #[cycle(walk)]
    fn assigns(
        &self,
        assigns: &[Assign],
        names: &Scope,
        scope: &mut Scope,
    ) -> Result<(), CheckAnswer>
        ensures { Answers (tt {0}) (assign_demands (names_of names.now) (given (look_of self.now.functions.now) assigns.now) (names_of scope.old)) (names_of scope.old) result scope.new }
    {
        for assign in assigns {
            let sort = value_named(names, &assign.name.name, assign.name.place)?;
            self.ask(&assign.value, sort, scope)?;
        }
        Ok(())
    }
}
