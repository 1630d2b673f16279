//! Whole bodies of functions: a `let` that stands alone gives the values of its own body.
ghost use Rattle.std.specs.Prelude.{◌≡◌, map};
ghost use Rattle.df_types.specs.Answers.{Answers};
ghost use Rattle.df_names.specs.Found.{names_of};
ghost use Rattle.df_types.specs.Sources.{fresh_demands, parameters, results_demands, function_demands, functions_demands, first_place};
ghost use Rattle.df_types.specs.Scopes.{bound, unbound};
ghost use Rattle.df_types.specs.Types.{look_of, asked_each, body_demands, count_of};

use crate::answers::CheckAnswer;
use crate::entry::{Entry, Scope};
use crate::names::{bind_fresh, forget};
use crate::walk::Walk;
use df_io::Place;
use df_syntax::program::Function;
use df_syntax::tree::{Expr, Node, Parameter, Sort};

impl Walk<'_> {
    /// How many values an expression gives as a whole body.
    #[cycle(count)]
    fn count(&self, expr: &Expr) -> usize
        ensures { result ≡ (look_of self.now.functions.now expr.now).count }
    {
        match expr.node.get() {
            Node::Parens { of } => self.count(of),
            Node::Let { values, .. } => self.count_all(values.as_slice()),
            _ => 1,
        }
    }

    /// How many values expressions give as a whole body.
    #[cycle(count)]
    fn count_all(&self, values: &[Expr]) -> usize
        ensures { result ≡ count_of (map (look_of self.now.functions.now) values.now) }
    {
        if values.len() == 1 {
            return self.count(&values[0]);
        }
        values.len()
    }

    /// Values, which are to be of these types.
    fn each(&self, values: &[Expr], results: &[Sort], scope: &mut Scope) -> Result<(), CheckAnswer>
        ensures { Answers (tt {0}) (asked_each (map (look_of self.now.functions.now) values.now) results.now (names_of scope.old)) (names_of scope.old) result scope.new }
    {
        for (i, value) in values.iter().enumerate() {
            if i >= results.len() {
                return Ok(());
            }
            self.ask(value, results[i], scope)?;
        }
        Ok(())
    }

    /// An expression as a whole body of several results.
    #[cycle(spread)]
    fn spread(&self, expr: &Expr, results: &[Sort], scope: &mut Scope) -> Result<(), CheckAnswer>
        ensures { Answers (tt {0}) ((look_of self.now.functions.now expr.now).spread results.now (names_of scope.old)) (names_of scope.old) result scope.new }
    {
        match expr.node.get() {
            Node::Parens { of } => self.spread(of, results, scope),
            Node::Let {
                definitions,
                values,
            } => {
                self.define(definitions.as_slice(), scope)?;
                self.whole(values.as_slice(), results, scope)?;
                forget(scope, definitions.as_slice());
                Ok(())
            }
            _ => Err(CheckAnswer::WrongArity(expr.place)),
        }
    }

    /// Expressions as a whole body.
    #[cycle(spread)]
    fn whole(&self, values: &[Expr], results: &[Sort], scope: &mut Scope) -> Result<(), CheckAnswer>
        ensures { Answers (tt {0}) (body_demands (map (look_of self.now.functions.now) values.now) results.now (names_of scope.old)) (names_of scope.old) result scope.new }
    {
        if values.len() == 1 && results.len() > 1 {
            return self.spread(&values[0], results, scope);
        }
        self.each(values, results, scope)
    }

    /// A function's body gives as many values as results are declared, and values of their types.
    fn check_results(
        &self,
        is_last: bool,
        function: &Function,
        scope: &mut Scope,
    ) -> Result<(), CheckAnswer>
        ensures { Answers (tt {0}) (results_demands self.now.functions.now is_last function.now (names_of scope.old)) (names_of scope.old) result scope.new }
    {
        let values = function.values.as_slice();
        let results = function.results.as_slice();
        if self.count_all(values) != results.len() {
            let place = first_place(values, function.name.place);
            return Err(CheckAnswer::WrongArity(place));
        }
        if is_last {
            return self.whole(values, results, scope);
        }
        self.each(values, results, scope)
    }

    /// A function: its parameters, then its body.
    fn check_function(
        &self,
        is_last: bool,
        function: &Function,
        scope: &mut Scope,
    ) -> Result<(), CheckAnswer>
        ensures { Answers (tt {0}) (function_demands self.now.functions.now is_last function.now (names_of scope.old)) (names_of scope.old) result scope.new }
    {
        bind_parameters(scope, function.parameters.as_slice())?;
        self.check_results(is_last, function, scope)?;
        forget_parameters(scope, function.parameters.as_slice());
        Ok(())
    }

    /// All functions.
    pub fn check_functions(&self, scope: &mut Scope) -> Result<(), CheckAnswer>
        ensures { Answers (tt {0}) (functions_demands self.now.functions.now self.now.functions.now (names_of scope.old)) (names_of scope.old) result scope.new }
    {
        for (i, function) in self.functions.iter().enumerate() {
            self.check_function(i + 1 == self.functions.len(), function, scope)?;
        }
        Ok(())
    }
}

/// The place of a body's first token, or another place where the body has no expression.
fn first_place(values: &[Expr], otherwise: Place) -> Place
    ensures { result ≡ first_place values.now otherwise }
{
    match values {
        [first, ..] => first.place,
        _ => otherwise,
    }
}

/// Binds parameters, each of which is to be new.
fn bind_parameters(scope: &mut Scope, all: &[Parameter]) -> Result<(), CheckAnswer>
    ensures { Answers (tt {0}) (fresh_demands (parameters all.now) (names_of scope.old)) (bound (parameters all.now) (names_of scope.old)) result scope.new }
{
    for parameter in all {
        bind_fresh(scope, &parameter.name, Entry::Local(parameter.sort))?;
    }
    Ok(())
}

/// Unbinds parameters, the last one first.
fn forget_parameters(scope: &mut Scope, all: &[Parameter])
    ensures { names_of scope.new ≡ unbound (parameters all.now) (names_of scope.old) }
{
    let mut left = all.len();
    while left > 0 {
        left -= 1;
        scope.unbind(&all[left].name.name);
    }
}
